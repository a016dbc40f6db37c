//! Listings of images.

ghost use Rattle.command_files.specs.Counting as files_count;
ghost use Rattle.command_files.specs.Images.{FileLacksImage};
ghost use Rattle.command_texts.specs.Listing.{IsListingIn};
ghost use Rattle.std.specs.Prelude.{◌≡◌, ◌+◌, IfErr, IfOk, OnOk};

use command_files::{Files, LoadFault, load_verified};
use image_listing::image_text;
use std::alloc::Global;

/// The listing of the image in this file. Err: there is no valid image in the file.
pub(crate) fn listing_in<F: Files>(
    alloc: Global,
    name: &str,
    files: &mut F,
) -> Result<Vec<u8>, LoadFault>
    ensures made { IfOk result (λ text. IsListingIn (F.contents files.old) name.now text.items) }
    ensures lacks { IfErr result (FileLacksImage (F.contents files.old) name.now) }
    ensures same { F.contents files.new ≡ F.contents files.old }
    ensures none_failed { OnOk result (F.failures files.new ≡ F.failures files.old) }
    ensures failed { IfErr result (λ fault. F.failures files.new
        ≡ F.failures files.old + files_count.files_failed fault) }
{
    let image = load_verified(alloc, files, name)?;
    let text = image_text(alloc, image.get())?;
    Ok(text.into_bytes())
}
