// The line that a scenario hangs on the wire.
ghost use Rattle.std.specs.Prelude.{◌≡◌, is_some, IfSome};
ghost use Rattle.lines.specs.AnyLine.{any_answers};
ghost use Rattle.scenario.specs.Models.{line_model};
ghost use Rattle.bench.specs.Lines.{at_first, possible};

use board::pump::PumpBoard;
use lines::any::AnyLine;
use lines::script::Script;
use relay::RelayChain;
use scenario::statement::LineSetup;

// None where no line can be set up so. Both types belong to other crates, so no `TryFrom` can stand here.
pub fn hang(setup: LineSetup) -> Option<AnyLine>
    ensures test { is_some result ≡ possible (line_model setup) }
    ensures line { IfSome result (λ l. any_answers l ≡ at_first (line_model setup)) }
{
    match setup {
        LineSetup::Relay(held) => Some(AnyLine::Relay(RelayChain::holding(held.as_slice())?)),
        LineSetup::Script(bytes) => Some(AnyLine::Script(Script::new(bytes))),
        LineSetup::Board(b) => Some(AnyLine::Board(PumpBoard::starting(b)?)),
    }
}
