// What the search of a file found, as text: the report's rows C and B.
#![tactic(auto)]

ghost use Rattle.std.specs.Prelude.{◌≤◌, length};
ghost use Rattle.model.specs.Commands.{commanded};
ghost use Rattle.model.specs.declared.Command.{Command};
ghost use Rattle.plans.specs.Left.{Left};

use loading::Room;
use model::Refusal;

// Writes what the search of a file found at the start of a buffer and answers its length, or answers why the file is refused.
pub fn plan(file: &[u8], text: &mut [u8]) -> Result<usize, Refusal>
    requires { 790 ≤ length text.old }
    ensures { Left (commanded Command.Search file.now) result text.new }
{
    let mut room = Room::new();
    let loaded = room.load(file)?;
    let plan = planning::search_network(&loaded);
    Ok(report::write_plan(loaded.network, &plan, text))
}
