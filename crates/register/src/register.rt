// The register.
ghost use Rattle.std.specs.Prelude.{◌≡◌, min, length};
ghost use Rattle.register.specs.Tables.{tables, used_rows};

use super::row::RuleRow;
use super::target_row::TargetRow;
use texts::Domain;

mod adding;
mod finding;
mod judging;
mod linking;
mod opening;
mod withdrawing;

const USED_ROWS: usize = 256;

const USED_TARGETS: usize = 4096;

// The first 256 rows and the first 4,096 targets are used. The calls take policies and rule numbers as they come from
// outside: which of them are too high is the calls' own refusal.
#[derive(Drop)]
pub struct Register {
    home: Domain,
    rows: Vec<RuleRow>,
    targets: Vec<TargetRow>,
}

impl Register {
    fn used_rows(&self) -> &[RuleRow]
        ensures { result.now ≡ used_rows (tables self.now) }
    {
        let n = self.rows.len().min(USED_ROWS);
        &self.rows[0..n]
    }
}
