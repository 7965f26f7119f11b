//! Laws of lines.
ghost use Rattle.std.specs.Prelude.{◌≡◌, ◌≤◌, Some, length};
ghost use Rattle.mos_edits.specs.Entries.{entry_of};
ghost use Rattle.mos_edits.specs.declared.edit.Edit.{Edit};
ghost use Rattle.world_laws.specs.World.{WorldEvent};
ghost use Rattle.world_scripts.specs.Events.{event_in};
ghost use Rattle.world_scripts.specs.Printed.{IsSayable, line_of};
ghost use Rattle.world_scripts.specs.PrintedCommands.{IsSayableEdit, command_line};

/// The line that an event is written as is read as that event: each event but a command, with numbers of at most nine digits
/// and names for orders.
#[tactic(auto, using(crate::proofs::ReadBack::event_back))]
pub fn lines_are_read_as_written()
    ensures { (e : WorldEvent) → IsSayable e → event_in (line_of e) ≡ Some e }
{}

/// The line that a command is written as is read as that command, if it has at most 1,000 bytes: each edit whose orders,
/// stories and items have names and nothing else, but for a new slug.
#[tactic(auto, using(crate::proofs::CommandsBack::command_back))]
pub fn commands_are_read_as_written()
    ensures { (e : Edit) → IsSayableEdit e → length (command_line e) ≤ 1000 → event_in (command_line e) ≡ Some (WorldEvent.Command (entry_of e)) }
{}
