ghost use Rattle.std.specs.Prelude.{◌≡◌, ◌<◌, ◌≤◌, ◌+◌, ◌-◌, ◌^◌, ◌==◌, IfOk, IsSome, Some, None, length, slice_get};
ghost use Rattle.dc_base.specs.Boot.{refusal, orders, after_orders};
ghost use Rattle.dc_base.specs.Commands.{at_next_command};
ghost use Rattle.dc_base.specs.Raises.{first_unbegun};
ghost use Rattle.dc_base.specs.Script.{next_command, next_raise};
ghost use Rattle.dc_base.specs.States.{script_start};

use crate::places::{next_command, raise_at};
use crate::settings::Settings;
use dc_base::commands::{Command, ScriptLine};
use dc_base::lists::Items;
use dc_base::memory::Memory;
use dc_boot::Registry;
use std::alloc::Global;
use std::marker::Model;

/// The boot driver: its script of at most 4,096 lines, the boot registry, and how far the script has come.
#[derive(Debug, Drop)]
pub struct ScriptState {
    settings: Settings,
    lines: Items<ScriptLine>,
    registry: Registry,
    place: u32,
    raises: u32,
    posts: u32,
    /// The place of the next raise, or the number of lines.
    next: u32,
}

// Contracts see the script of the machine with cores.
impl Model for ScriptState {
    ghost use Rattle.dc_base.specs.States.{Script};
    ghost use Rattle.dc_objects.specs.Scripts.{IsScript};

    ghost Value = { Script };

    ghost view = { λ t. record { settings = t.settings; lines = t.lines; registry = t.registry; place = t.place; raises = t.raises; posts = t.posts } };

    ghost invariant = { λ t. IsScript t.lines t.place t.raises t.next };
}

impl ScriptState {
    /// The script before its first line.
    #[tactic(auto, using(crate::proofs::ScriptPlaces::next_raise_first))]
    pub fn start(settings: Settings, lines: Items<ScriptLine>, registry: Registry) -> ScriptState
        requires { length lines ≤ 4096 }
        ensures { result ≡ record { settings = settings; lines = lines; registry = registry; place = next_command lines 0; raises = 0; posts = 0 } }
    {
        let place = next_command(lines.as_slice(), 0);
        let next = raise_at(lines.as_slice(), 0);
        ScriptState {
            settings,
            lines,
            registry,
            place,
            raises: 0,
            posts: 0,
            next,
        }
    }

    pub fn settings(&self) -> &Settings
        ensures { result.now ≡ self.now.settings }
    {
        &self.settings
    }

    pub fn registry(&self) -> &Registry
        ensures { result.now ≡ self.now.registry }
    {
        &self.registry
    }

    /// The line of the first command that is not finished, or the number of lines.
    pub fn place(&self) -> u32
        ensures value { result ≡ self.now.place }
        ensures within { self.now.place ≤ length self.now.lines }
    {
        self.place
    }

    /// The posts made for the command in progress.
    pub fn posts(&self) -> u32
        ensures { result ≡ self.now.posts }
    {
        self.posts
    }

    /// Whether every command is finished.
    pub fn is_over(&self) -> bool
        ensures { result ≡ (self.now.place == length self.now.lines) }
    {
        self.place as usize == self.lines.len()
    }

    /// The line at a place.
    pub fn line(&self, q: u32) -> Option<ScriptLine>
        ensures { result ≡ slice_get self.now.lines q }
    {
        self.lines.get(q as usize).copied()
    }

    /// The place of the next raise, if one is left.
    pub fn next_raise(&self) -> Option<u32>
        ensures { result ≡ next_raise self.now.lines self.now.raises }
    {
        if (self.next as usize) < self.lines.len() {
            return Some(self.next);
        }
        None
    }

    /// The place of the first command that has made no entry, or the number of lines.
    pub fn first_unbegun(&self) -> u32
        ensures { result ≡ first_unbegun self.now }
    {
        if self.posts == 0 {
            return self.place;
        }
        self.place_after()
    }

    #[tactic(auto, using(crate::proofs::ScriptPlaces::no_command_past))]
    fn place_after(&self) -> u32
        ensures value { result ≡ next_command self.now.lines (self.now.place + 1) }
        ensures within { result ≤ length self.now.lines }
    {
        let lines = self.lines.as_slice();
        if self.place as usize == lines.len() {
            return self.place;
        }
        next_command(lines, self.place + 1)
    }

    /// The script stands at the next command.
    pub fn go_on(&mut self)
        ensures { self.new ≡ at_next_command self.old }
    {
        self.place = self.place_after();
        self.posts = 0;
    }

    /// The orders of a command that is not refused are carried out, and the script stands at the next one.
    pub fn finish(&mut self, c: &Command)
        requires { refusal self.old.registry c.now ≡ None }
        ensures { self.new ≡ at_next_command (record self.old { registry = after_orders self.old.registry (orders self.old.registry c.now) }) }
    {
        self.registry.finish(c);
        self.go_on();
    }

    /// One more order was posted.
    pub fn posted(&mut self)
        requires { self.old.posts < 2 ^ 32 - 1 }
        ensures { self.new ≡ record self.old { posts = self.old.posts + 1 } }
    {
        self.posts += 1;
    }

    /// The next raise was made.
    #[tactic(auto, using(crate::proofs::ScriptPlaces::next_raise_after))]
    pub fn raised(&mut self)
        requires { IsSome (next_raise self.old.lines self.old.raises) }
        ensures { self.new ≡ record self.old { raises = self.old.raises + 1 } }
    {
        self.raises += 1;
        self.next = raise_at(self.lines.as_slice(), self.next + 1);
    }
}
