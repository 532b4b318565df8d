//! Which lines may come while nothing runs.
ghost use Rattle.std.specs.Prelude.{◌≡◌};
ghost use Rattle.pif_history_model.specs.Lines.{comes_while, halted_after};

use pif_history_model::Line;

/// Whether a line may come if nothing runs, or if threads run.
pub fn comes_while(halted: bool, line: &Line) -> bool
    ensures { result ≡ comes_while halted line.now }
{
    match *line {
        Line::Rests(_) | Line::Prio(_, _) | Line::End(_) | Line::Asks(_, _) => true,
        Line::Resumed => halted,
        _ => !halted,
    }
}

/// Whether nothing runs behind one more line, if it did or didn't before it.
pub fn halted_after(line: &Line, halted: bool) -> bool
    ensures { result ≡ halted_after line.now halted }
{
    match *line {
        Line::Halted => true,
        Line::Resumed => false,
        _ => halted,
    }
}
