//! Bytes cut into lines.

ghost use Rattle.std.specs.Prelude.{◌≡◌, ◌∷◌, [], ◌<◌, length, IfSome, IfNone};
ghost use Rattle.log_tree.specs.Cutting.{bare, lines_in};

/// A line without the carriage return of its end.
#[tactic(auto, using(crate::proofs::FirstLines::bare_ends, crate::proofs::FirstLines::bare_stays, crate::proofs::FirstLines::bare_none))]
fn without_return(line: &[u8]) -> &[u8]
    ensures { result.now ≡ bare line.now }
{
    let length = line.len();
    if length == 0 {
        return line;
    }
    if line[length - 1] == b'\r' {
        return &line[..length - 1];
    }
    line
}

/// The first line of what is left of a text.
#[tactic(auto, using(crate::proofs::FirstLines::feedless_more_at, crate::proofs::FirstLines::cut_at, crate::proofs::FirstLines::cut_last))]
pub(crate) fn first_line(bytes: &[u8]) -> (&[u8], &[u8])
    requires some { 0 < length bytes.now }
    ensures cut { lines_in bytes.now ≡ result.0.now ∷ lines_in result.1.now }
    ensures shorter { length result.1.now < length bytes.now }
{
    'bytes: for i in 0..bytes.len() {
        if bytes[i] == b'\n' {
            return (without_return(&bytes[..i]), &bytes[i + 1..]);
        }
    }
    (bytes, &[])
}
