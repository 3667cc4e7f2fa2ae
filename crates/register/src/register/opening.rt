// Opening a register.
ghost use Rattle.std.specs.Prelude.{◌≡◌, map, vec_len};
ghost use Rattle.texts.specs.TextValues.{text_of};
ghost use Rattle.register.specs.Entries.{freed};
ghost use Rattle.register.specs.Tables.{tables, opening, Cleared, Opened};
ghost use Rattle.register.specs.Targets.{unlinked as no_links};

use super::super::row::RuleRow;
use super::super::target_row::TargetRow;
use super::{Register, USED_ROWS, USED_TARGETS};
use texts::Domain;

fn free_rows(rows: &mut [RuleRow])
    ensures { rows.new ≡ map freed rows.old }
{
    for row in rows.iter_mut() {
        row.mark_free();
    }
}

// Takes away every link.
fn clear_targets(targets: &mut [TargetRow])
    ensures { targets.new ≡ map (λ _. no_links) targets.old }
{
    targets.fill(TargetRow::unlinked());
}

impl Register {
    // A register at this home, over these tables, whose used part is cleared.
    pub fn open(home: Domain, mut rows: Vec<RuleRow>, mut targets: Vec<TargetRow>) -> Register
        ensures cleared { Cleared rows.items targets.items (tables result) }
        ensures opened { Opened (record { home = text_of home; rows = vec_len rows; targets = vec_len targets }) (tables result) }
    {
        // The targets first: where a caller has just made both tables, the compiler then writes them once and not twice.
        let m = targets.len().min(USED_TARGETS);
        clear_targets(&mut targets[0..m]);
        let n = rows.len().min(USED_ROWS);
        free_rows(&mut rows[0..n]);
        Register {
            home,
            rows,
            targets,
        }
    }
}
