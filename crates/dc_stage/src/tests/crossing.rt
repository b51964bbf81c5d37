//! Threads share a stage by reference, and a pass goes to one of them, whatever the scene.
use crate::{Pass, Scene, Stage};

fn goes<T: Send>(_value: &T) {}

fn is_shared<T: Sync>(_value: &T) {}

pub fn stage_crosses<S: Scene>(stage: &Stage<S>) {
    goes(stage);
    is_shared(stage);
}

pub fn pass_crosses<S: Scene>(pass: &Pass<S>) {
    goes(pass);
}
