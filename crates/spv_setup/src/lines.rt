//! The lines of a text.
ghost use Rattle.std.specs.Prelude.{◌≡◌, option_copied};
ghost use Rattle.std.specs.List.{position};
ghost use Rattle.spv_setup.specs.Lines.{is_line_feed, without_return, HasFirstLine};

/// The place of the first line feed.
fn first_line_feed(text: &[u8]) -> Option<usize>
    ensures { result ≡ position is_line_feed text.now }
{
    text.iter().position(|b| *b == b'\n')
}

/// A line without the carriage return at its end.
fn without_return(line: &[u8]) -> &[u8]
    ensures { result.now ≡ without_return line.now }
{
    match line.split_last() {
        Some((b'\r', line)) => line,
        _ => line,
    }
}

/// The first line of a text, and the text after it where a line feed ended the line.
pub fn next_line(text: &[u8]) -> (&[u8], Option<&[u8]>)
    ensures { HasFirstLine text.now result.0.now (option_copied result.1) }
{
    match first_line_feed(text) {
        None => (text, None),
        Some(end) => {
            let (line, rest) = text.split_at(end);
            let (_, rest) = rest.split_at(1);
            (without_return(line), Some(rest))
        }
    }
}
