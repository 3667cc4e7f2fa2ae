// Reading the parts of a rule, field by field.
ghost use Rattle.std.specs.Prelude.{◌≡◌, ◌+◌, ◌%◌, ◌<◌, ◌≤◌, map, IfOk, OnOk};
ghost use Rattle.bits.specs.Reader.{bytes, source, place};
ghost use Rattle.texts.specs.Few.{listed};
ghost use Rattle.notes.specs.Originators.{originator_of, originator_reads};
ghost use Rattle.notes.specs.Readings.{times};
ghost use Rattle.notes.specs.Rules.{head_reads, rule_of, rule_reads};
ghost use Rattle.notes.specs.Told.{Read, ReadAs};

use super::super::context::read_count;
use super::super::fault::NoteFault;
use super::super::lists::read_list;
use super::super::set::Set;
use super::{Head, RuleParts, Side};
use bits::BitReader;

impl Head {
    fn read(r: &mut BitReader) -> Result<Head, NoteFault>
        ensures read { Read head_reads r.old result r.new }
        ensures moved { OnOk result (place r.new ≡ place r.old + 16) }
        ensures small { IfOk result (λ h. (h.originators ≤ 4) × (h.contexts ≤ 2) × (h.child_types ≤ 4)) }
    {
        let side = r.take(1)?;
        let authenticated = r.take(1)?;
        let operations = r.take(6)?;
        let originators = read_count(r, 3, 1, 4)?;
        let contexts = read_count(r, 2, 0, 2)?;
        let child_types = read_count(r, 3, 0, 4)?;
        Ok(Head {
            // Each number of the field is a side, so that nothing can fail.
            side: if side == 0 {
                Side::Privileges
            } else {
                Side::SelfPrivileges
            },
            authenticated: authenticated == 1,
            operations: Set::of(operations),
            originators,
            contexts,
            child_types,
        })
    }
}

impl RuleParts {
    pub(super) fn read(r: &mut BitReader) -> Result<RuleParts, NoteFault>
        requires { place r.old % 8 ≡ 0 }
        ensures { ReadAs (rule_of (bytes r.old)) rule_reads r.old result r.new }
    {
        let head = Head::read(r)?;
        let originators = read_list(r, head.originators)?;
        let child_types = read_list(r, head.child_types)?;
        let contexts = read_list(r, head.contexts)?;
        Ok(RuleParts {
            side: head.side,
            authenticated: head.authenticated,
            operations: head.operations,
            originators,
            child_types,
            contexts,
        })
    }
}
