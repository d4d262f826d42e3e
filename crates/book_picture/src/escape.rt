ghost use Rattle.std.specs.Prelude.{◌≡◌, ◌++◌, OnOk, string_bytes};
ghost use Rattle.book_picture.specs.Escape.{escape_of, escaped};

use book_base::NoMemory;

/// Appends a text to XML: what would be read as markup is escaped.
pub(crate) fn put_escaped(out: &mut String, text: &[u8]) -> Result<(), NoMemory>
    ensures { OnOk result (string_bytes out.new ≡ string_bytes out.old ++ escaped text.now) }
{
    for byte in text {
        put_byte(out, *byte)?;
    }
    Ok(())
}

// Appends a byte to XML, escaped.
fn put_byte(out: &mut String, byte: u8) -> Result<(), NoMemory>
    ensures { OnOk result (string_bytes out.new ≡ string_bytes out.old ++ escape_of byte) }
{
    match byte {
        b'&' => out.push_str("&amp;")?,
        b'<' => out.push_str("&lt;")?,
        b'>' => out.push_str("&gt;")?,
        b'"' => out.push_str("&quot;")?,
        _ => out.push(char::from(byte))?,
    }
    Ok(())
}
