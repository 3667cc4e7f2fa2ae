// Judging requests.
ghost use Rattle.std.specs.Prelude.{◌≡◌, ◌&&◌, List, ◌∷◌, length, Some, None, vec_len, MatchResult};
ghost use Rattle.texts.specs.TextValues.{text_of};
ghost use Rattle.admission.specs.Requests.{request_of};
ghost use Rattle.register.specs.Answers.{Opening, judge as judge_call, Decision, verdict_given, decided};
ghost use Rattle.register.specs.Entries.{entry_of};
ghost use Rattle.register.specs.Faults.{cause_refusal};
ghost use Rattle.register.specs.Requests.{target_refusal, eligible, passes};
ghost use Rattle.register.specs.Season.{Met, Through, Law};
ghost use Rattle.register.specs.Tables.{tables, is_linked, holdings, Served};

use super::super::fault::{Cause, RegisterFault};
use super::super::request::{Request, Target};
use super::super::row::HeldRule;
use super::super::rule_name::LAST_POLICY;
use super::super::verdict::Verdict;
use super::Register;
use admission::CheckedRequest;
use members::MemberList;
use notes::Side;

impl Register {
    fn check_target(&self, target: Target) -> Result<(), Cause>
        ensures { MatchResult result (λ _. target_refusal (vec_len self.now.targets) target ≡ None) (λ c. target_refusal (vec_len self.now.targets) target ≡ Some (cause_refusal c)) }
    {
        match target {
            Target::Number(number) => {
                if !self.has_target(number) {
                    return Err(Cause::UnknownTarget);
                }
            }
            Target::Policy(policy) => {
                if policy > LAST_POLICY {
                    return Err(Cause::TooHigh);
                }
            }
        }
        Ok(())
    }

    fn is_linked(&self, target: u32, policy: u32) -> bool
        ensures { result ≡ is_linked (tables self.now) target policy }
    {
        self.has_target(target) && self.targets[target as usize].has(policy)
    }

    fn is_eligible(&self, rule: &HeldRule, target: Target) -> bool
        ensures { result ≡ eligible (is_linked (tables self.now)) target (entry_of rule.now) }
    {
        let policy = rule.name().policy;
        match target {
            Target::Number(number) => {
                rule.side() == Side::Privileges && self.is_linked(number, policy)
            }
            Target::Policy(itself) => { rule.side() == Side::SelfPrivileges && policy == itself }
        }
    }

    // Whether the rule is eligible and admits the request.
    #[tactic(auto, unfolding(crate::specs::Requests::passes))]
    fn passes<L: MemberList>(
        &self,
        rule: &HeldRule,
        target: Target,
        request: &CheckedRequest,
        members: &L,
    ) -> bool
        ensures { result ≡ passes (text_of self.now.home) (is_linked (tables self.now)) target (L.pairs members.now) (request_of request.now) (entry_of rule.now) }
    {
        self.is_eligible(rule, target) && rule.view().admits(&self.home, request, members)
    }

    // Looks at each used row once. Target, request and member list have three owners, and are passed on as they come.
    fn survey<L: MemberList>(
        &self,
        target: Target,
        request: &CheckedRequest,
        members: &L,
    ) -> Verdict
        ensures { Decision (holdings (tables self.now)).count (passes (text_of self.now.home) (is_linked (tables self.now)) target (L.pairs members.now) (request_of request.now)) (verdict_given result) }
    {
        let mut verdict = Verdict::Deny;
        for row in self.used_rows() {
            if let Some(rule) = row.held() {
                if self.passes(rule, target, request, members) {
                    verdict = verdict.with(rule.name());
                }
            }
        }
        verdict
    }

    fn decide<L: MemberList>(
        &self,
        request: &Request,
        members: &L,
    ) -> Result<Verdict, RegisterFault>
        ensures { Served (judge_call request.now (L.pairs members.now)) (tables self.now) (decided result) (tables self.now) }
    {
        self.check_target(request.target)?;
        let checked = request.check()?;
        Ok(self.survey(request.target, &checked, members))
    }

    // Judges a request with a member list. Over every season of calls that the register has met since it was opened, its
    // answers are those of the season book, and a wider season never gives a smaller number.
    pub fn judge<L: MemberList>(
        &self,
        request: &Request,
        members: &L,
    ) -> Result<Verdict, RegisterFault>
        ensures answer { Served (judge_call request.now (L.pairs members.now)) (tables self.now) (decided result) (tables self.now) }
        ensures season { (o : Opening) (ms : List Met) → Through o ms (tables self.now) → Law o (record { call = judge_call request.now (L.pairs members.now); answer = decided result } ∷ ms) }
    {
        self.decide(request, members)
    }
}
