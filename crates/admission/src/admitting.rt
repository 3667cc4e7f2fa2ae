// Which requests a rule admits.
ghost use Rattle.std.specs.Prelude.{◌≡◌};
ghost use Rattle.std.specs.List.{list_any};
ghost use Rattle.texts.specs.TextValues.{text_of};
ghost use Rattle.admission.specs.Admitting.{originator_matches, types_admit, contexts_admit, rule_is_for, rule_admits};
ghost use Rattle.admission.specs.Requests.{request_of};
ghost use Rattle.admission.specs.Views.{rule_in, entry_in};

use super::request::CheckedRequest;
use super::view::{EntryView, RuleView};
use members::MemberList;
use notes::{EntryKind, Operation, list_admits};
use texts::{Domain, Identity, domain_matches, pattern_matches};

impl EntryView<'_> {
    // Whether the entry matches the identity. The member list is asked for standings only.
    fn matches<L: MemberList>(&self, home: &Domain, identity: &Identity, members: &L) -> bool
        ensures { result ≡ originator_matches (text_of home.now) (L.pairs members.now) (text_of identity.now) (entry_in self.now) }
    {
        match self.kind {
            EntryKind::All => true,
            EntryKind::Pattern => pattern_matches(home, self.text, identity.as_bytes()),
            EntryKind::Domain => domain_matches(self.text, identity.as_bytes()),
            EntryKind::Standing => members.has(identity, self.text),
        }
    }
}

// Whether the child types admit the request's. Only Create looks at them.
fn types_admit(operation: Operation, types: &[u16], child_type: Option<u16>) -> bool
    ensures { result ≡ types_admit operation types.now child_type }
{
    match operation {
        Operation::Create => list_admits(types, child_type.as_ref()),
        Operation::Retrieve
        | Operation::Update
        | Operation::Delete
        | Operation::Discover
        | Operation::Notify => true,
    }
}

impl RuleView<'_> {
    // Whether the rule is for such a request at all: its flag, its operations and its child types.
    fn is_for(&self, request: &CheckedRequest) -> bool
        ensures { result ≡ rule_is_for (rule_in self.now) (request_of request.now) }
    {
        (!self.parts.authenticated() | request.authenticated)
            & (self.parts.has_operation(request.operation)
                & types_admit(
                    request.operation,
                    self.parts.child_types(),
                    request.child_type,
                ))
    }

    // Whether the contexts admit the request.
    fn contexts_admit(&self, request: &CheckedRequest) -> bool
        ensures { result ≡ contexts_admit (rule_in self.now).contexts (request_of request.now) }
    {
        list_admits(self.parts.contexts(), Some(&request.circumstances))
    }

    // Whether an originator entry matches the request's identity.
    fn is_from<L: MemberList>(&self, home: &Domain, request: &CheckedRequest, members: &L) -> bool
        ensures { result ≡ list_any (originator_matches (text_of home.now) (L.pairs members.now) (text_of request.now.identity)) (rule_in self.now).originators }
    {
        self.parts.originators().iter().any(|entry| self
            .entry(entry)
            .matches(home, &request.identity, members))
    }

    // Whether the rule admits the request. Home, request and member list have three owners, and are passed on as they come.
    // The member list is asked last, and only where nothing else stands against it.
    #[tactic(auto, unfolding(crate::specs::Admitting::rule_admits))]
    pub fn admits<L: MemberList>(
        &self,
        home: &Domain,
        request: &CheckedRequest,
        members: &L,
    ) -> bool
        ensures { result ≡ rule_admits (text_of home.now) (L.pairs members.now) (rule_in self.now) (request_of request.now) }
    {
        self.is_for(request) && self.contexts_admit(request) && self.is_from(home, request, members)
    }
}
