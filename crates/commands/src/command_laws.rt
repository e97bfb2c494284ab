//! Laws of commands: what is said of them by their records, and by their names.
ghost use Rattle.std.specs.Prelude.{◌↔◌, Option};
ghost use Rattle.commands.specs.Command.{IsReadOnlyRow, IsStoreQuery};
ghost use Rattle.commands.specs.declared.words.Row as rows;

/// A law: the commands that open the store and write nothing, at whatever status, are `totals`, `bench`, `port`,
/// `mark`, `shifts` and `sealed`, and no others.
pub fn six_commands_only_look()
    ensures { (row : Option rows.Row) → IsReadOnlyRow row ↔ IsStoreQuery row }
{}
