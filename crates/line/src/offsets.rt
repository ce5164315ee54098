// The fields of a text: how many there are, and where each starts.
ghost use Rattle.std.specs.Prelude.{◌≡◌, length};
ghost use Rattle.text.specs.Bytes.{start};
ghost use Rattle.text.specs.Rows.{fields};

// How many fields there are: one more than semicolons. A sum over all bytes: a count of those that a
// filter lets through has a branch for each byte (docs/FIGURES.md).
pub fn field_count(text: &[u8]) -> usize
    ensures { result ≡ length (fields text.now) }
{
    text.iter().map(|b| usize::from(*b == b';')).sum::<usize>() + 1
}

// The offset of a field's first byte, counting fields from 1, or 0 for no field.
pub fn field_offset(text: &[u8], field: u8) -> usize
    ensures { result ≡ start field (fields text.now) }
{
    text.split(|b| *b == b';')
        .take(usize::from(field).saturating_sub(1))
        .map(|part| part.len() + 1)
        .sum()
}
