// Layers lie on each other in any order.
ghost use Rattle.std.specs.Prelude.{◌≡◌, MatchResult};
ghost use Rattle.texts.specs.TextValues.{text_of};
ghost use Rattle.members.specs.Orders.{LayersKeepOrder};
ghost use Rattle.members.specs.Pairs.{with_pair, without_identity};
ghost use Rattle.members.specs.Rows.{listed};

use super::flat_roll::{FlatRoll, MemberRow};
use super::full::LayerFull;
use super::leavers::LeaversLayer;
use super::member_list::MemberList;
use super::tokens::TokenLayer;
use texts::{Identity, Standing};

fn ask<L: MemberList>(members: &L, identity: &Identity, standing: &[u8]) -> bool
    ensures { result ≡ L.pairs members.now (text_of identity.now) standing.now }
{
    members.has(identity, standing)
}

// A noted identity loses the pair that it presented below. This function and the next build two types of pile: each is the
// example of its own order.
pub fn leavers_over_tokens(
    rows: &[MemberRow],
    identity: &Identity,
    standing: &Standing,
    asked: &Identity,
    wanted: &[u8],
) -> Result<bool, LayerFull>
    ensures { MatchResult result (λ b. b ≡ without_identity (text_of identity.now) (with_pair (text_of identity.now) (text_of standing.now) (listed rows.now)) (text_of asked.now) wanted.now) (λ _. ⊥) }
{
    let mut tokens = TokenLayer::new(FlatRoll::new(rows));
    tokens.present(identity, standing)?;
    let mut pile = LeaversLayer::new(tokens);
    pile.note(identity)?;
    Ok(ask(&pile, asked, wanted))
}

// A noted identity has the pair that it presents above, and no other.
pub fn tokens_over_leavers(
    rows: &[MemberRow],
    identity: &Identity,
    standing: &Standing,
    asked: &Identity,
    wanted: &[u8],
) -> Result<bool, LayerFull>
    ensures { MatchResult result (λ b. b ≡ with_pair (text_of identity.now) (text_of standing.now) (without_identity (text_of identity.now) (listed rows.now)) (text_of asked.now) wanted.now) (λ _. ⊥) }
{
    let mut leavers = LeaversLayer::new(FlatRoll::new(rows));
    leavers.note(identity)?;
    let mut pile = TokenLayer::new(leavers);
    pile.present(identity, standing)?;
    Ok(ask(&pile, asked, wanted))
}

pub fn layers_keep_order()
    ensures { LayersKeepOrder }
{}
