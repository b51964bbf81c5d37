//! Images from their bytes.

ghost use Rattle.std.specs.Prelude.{◌≡◌, Ok, IfOk, IfErr};
ghost use Rattle.dc_image.specs.Faults.{Refuses, refusal_of};
ghost use Rattle.dc_base.specs.Valid.{IsValid};
ghost use Rattle.dc_image.specs.ImageOf.{image_of};

use crate::image;
use dc_base::faults::ImageFault;
use dc_base::images::Image;
use dc_base::limits::LONGEST_FILE;
use std::alloc::Global;

/// Reads an image: a TOML text of at most 33,554,432 bytes. A refusal names the first key with a fault, in the order of the keys, by its path.
pub fn read_image(alloc: Global, bytes: &[u8]) -> Result<Image, ImageFault>
    ensures image { IfOk result (λ image. image_of bytes.now ≡ Ok image) }
    ensures valid { IfOk result IsValid }
    ensures refused { IfErr result (λ fault. Refuses (refusal_of fault) (image_of bytes.now)) }
{
    if bytes.len() > LONGEST_FILE {
        return Err(ImageFault::TooLong);
    }
    let Ok(text) = str::from_utf8(bytes) else {
        return Err(ImageFault::NotToml);
    };
    let table = match toml::table_from_str(alloc, text) {
        Ok(table) => table,
        Err(fault) => {
            if fault.is_memory() {
                return Err(ImageFault::Memory);
            }
            return Err(ImageFault::NotToml);
        }
    };
    match image::image_of(alloc, &table) {
        Ok(image) => Ok(image),
        Err(fault) => Err(fault.told()),
    }
}
