//! The fields of a line.

ghost use Rattle.std.specs.Prelude.{◌≡◌, ◌++◌, OnOk};
ghost use Rattle.log_text.specs.Written.{field_text};

use itoa::Buffer;
use log_spelling::Part;
use tube_io::NoMemory;

/// A field of a line.
#[derive(Clone, Copy)]
pub(crate) enum Field<'a> {
    /// These bytes.
    Text(&'a [u8]),
    /// A name, with the part of what bears it.
    Reference(&'a [u8], Part),
    /// A number in decimal digits, with `-` before a negative one.
    Number(i64),
    /// These bytes between double quotes.
    Quoted(&'a [u8]),
}

/// Appends bytes.
pub(crate) fn append(out: &mut Vec<u8>, text: &[u8]) -> Result<(), NoMemory>
    ensures { OnOk result (out.new.items ≡ out.old.items ++ text.now) }
{
    out.extend_from_slice(text)?;
    Ok(())
}

/// Appends a field.
pub(crate) fn append_field(out: &mut Vec<u8>, field: Field) -> Result<(), NoMemory>
    ensures { OnOk result (out.new.items ≡ out.old.items ++ field_text field.entry) }
{
    match field {
        Field::Text(text) => append(out, text),
        Field::Reference(name, part) => {
            append(out, name)?;
            append(out, part.text())
        }
        Field::Number(n) => {
            let mut digits = Buffer::new();
            append(out, digits.format(n).as_bytes())
        }
        Field::Quoted(text) => {
            append(out, b"\"")?;
            append(out, text)?;
            append(out, b"\"")
        }
    }
}
