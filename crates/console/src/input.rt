// Reading standard input line by line, whatever bytes it holds.
ghost use Rattle.std.specs.Prelude.{◌≡◌};
ghost use Rattle.console.specs.Lines.{without_newline};

// A line without the newline byte at its end.
pub fn without_newline(line: &[u8]) -> &[u8]
    ensures { result.now ≡ without_newline line.now }
{
    match line {
        [kept @ .., b'\n'] => kept,
        _ => line,
    }
}
