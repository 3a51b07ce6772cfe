// The calls that only change the choice.
ghost use Rattle.std.specs.Prelude.{◌≡◌, List, map};
ghost use Rattle.refusal.specs.Checks.{answered, left};
ghost use Rattle.table.specs.Marks.{choosing, unchosen};
ghost use Rattle.translator.specs.Choice.{table_check, control_refusal};

use refusal::Refusal;
use table::{Record, check_table, choose, clear_choice};

// Chooses an instrument, to be written or read by the next data call.
pub fn control(table: &mut [Record], number: usize, write: bool) -> Result<(), Refusal>
    ensures value { result ≡ answered tt (control_refusal table.old number) }
    ensures after { table.new ≡ left (control_refusal table.old number) (choosing table.old number write) table.old }
{
    check_table(table)?;
    choose(table, number, write)
}

// Forgets the choice.
pub fn drop_choice(table: &mut [Record]) -> Result<(), Refusal>
    ensures value { result ≡ answered tt (table_check table.old) }
    ensures after { table.new ≡ left (table_check table.old) (map unchosen table.old) table.old }
{
    check_table(table)?;
    clear_choice(table);
    Ok(())
}
