//! The laws of the layout. Each function does nothing: its contract is the law.

ghost use Rattle.std.specs.Prelude.{◌≡◌, ◌↔◌, ◌<◌, ℕ, List, All, Ok, Err, slice_set};
ghost use Rattle.bytecode.specs.Image.{Image};
ghost use Rattle.bytecode.specs.Spells.{Spells};
ghost use Rattle.bytecode.specs.Reading.Image.{reading};
ghost use Rattle.std.specs.List.{concat};
ghost use Rattle.bytecode.specs.Beginnings.{IsCutSpelling, HasTail};
ghost use Rattle.bytecode.specs.BadField.{IsBadField};
ghost use Rattle.bytecode.specs.FieldList.{fields};
ghost use Rattle.bytecode.specs.Layout.{spelling};
ghost use Rattle.bytecode.specs.declared.fault.DecodeFault.TheVariants.{Short, Trailing, Field};

/// Bytes spell one image at most: what is encoded and then decoded is the image.
pub fn bytes_spell_one_image()
    ensures { (version : ℕ) (bytes : List ℕ) (i j : Image) → Spells version bytes i
        → Spells version bytes j → i ≡ j }
{}

/// An image has one spelling at most: what is decoded and then encoded is the bytes.
pub fn image_has_one_spelling()
    ensures { (version : ℕ) (a b : List ℕ) (i : Image) → Spells version a i → Spells version b i → a ≡ b }
{}

/// Reading from the left gives an image exactly where the bytes spell it.
pub fn reading_is_spelling()
    ensures { (version : ℕ) (bytes : List ℕ) (i : Image) → All (λ b. b < 256) bytes
        → (reading version bytes ≡ Ok i) ↔ (Spells version bytes i) }
{}

/// What version 1 spells, version 2 spells by the same bytes but for the version's, the fifth: an image
/// of version 1 that was accepted is accepted, with the same program and tables.
pub fn version_1_is_spelled_in_version_2()
    ensures { (bytes : List ℕ) (i : Image) → Spells 1 bytes i → Spells 2 (slice_set bytes 4 2) i }
{}

/// A spelling that is cut is too short.
pub fn cut_spelling_is_short()
    ensures { (version : ℕ) (bytes : List ℕ) → IsCutSpelling version bytes
        → reading version bytes ≡ Err Short }
{}

/// Bytes have a tail exactly where they are a spelling and more behind it.
pub fn spelling_and_more_has_a_tail()
    ensures { (version : ℕ) (bytes : List ℕ) → All (λ b. b < 256) bytes
        → (reading version bytes ≡ Err Trailing) ↔ (HasTail version bytes) }
{}

/// The fields of an image, one behind the other, are its spelling.
pub fn fields_make_the_spelling()
    ensures { (version : ℕ) (i : Image) → concat (fields version i) ≡ spelling version i }
{}

/// A bad field that is told is one: some spelling begins with the bytes before it, where a field of its
/// length begins, and none with these and the field itself.
pub fn told_field_is_bad()
    ensures { (version : ℕ) (bytes : List ℕ) (offset : ℕ) → All (λ b. b < 256) bytes
        → reading version bytes ≡ Err (Field offset) → IsBadField version bytes offset }
{}
