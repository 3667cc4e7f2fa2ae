// A short season, played by real calls.
ghost use Rattle.std.specs.Prelude.{[], ◌∷◌, vec_len};
ghost use Rattle.texts.specs.TextValues.{text_of};
ghost use Rattle.register.specs.Answers.{add, withdraw, link, judge, decided};
ghost use Rattle.register.specs.Book.{book_count};
ghost use Rattle.register.specs.Season.{Numbered};

use super::fault::RegisterFault;
use super::register::Register;
use super::request::Request;
use super::row::RuleRow;
use super::target_row::TargetRow;
use super::verdict::Verdict;
use members::MemberList;
use texts::Domain;

type Answered = Result<Verdict, RegisterFault>;

// Opens a register, adds the note as rule 9 of policy 1, links policy 1 to target 3, judges the request, withdraws the rule
// and judges again. By the law of a season the numbers are the book's.
pub fn short_season<L: MemberList>(
    home: Domain,
    rows: Vec<RuleRow>,
    targets: Vec<TargetRow>,
    note: &[u8],
    request: &Request,
    members: &L,
) -> (Answered, Answered)
    ensures first { Numbered (decided result.0) (book_count (record { home = text_of home; rows = vec_len rows; targets = vec_len targets }) (link 3 1 ∷ (add 1 9 note.now ∷ [])) request.now (L.pairs members.now)) }
    ensures second { Numbered (decided result.1) (book_count (record { home = text_of home; rows = vec_len rows; targets = vec_len targets }) (withdraw 1 9 ∷ (judge request.now (L.pairs members.now) ∷ (link 3 1 ∷ (add 1 9 note.now ∷ [])))) request.now (L.pairs members.now)) }
{
    let mut register = Register::open(home, rows, targets);
    let _added = register.add(1, 9, note);
    let _linked = register.link(3, 1);
    let first = register.judge(request, members);
    let _withdrawn = register.withdraw(1, 9);
    let second = register.judge(request, members);
    (first, second)
}
