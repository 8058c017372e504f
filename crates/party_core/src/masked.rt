//! The steps And and Share at one party: a new pair under masks, and what is sent of it.
#![tactic(auto)]

ghost use Rattle.std.specs.Prelude.{◌≡◌, ◌∷◌, [], IfOk, OnErr, OnOk, length};
ghost use Rattle.lanes.specs.Lanes.{xors};
ghost use Rattle.lanes.specs.Party.{before, next};
ghost use Rattle.lanes.specs.Three.{at, put};
ghost use Rattle.step_lists.specs.Draws.{nothing, words_in};
ghost use Rattle.step_lists.specs.Open.{item};
ghost use Rattle.step_lists.specs.Part.{and_part, given_away, pair_at, shared_pair, to_others, when_sent, with_pairs};
ghost use Rattle.step_lists.specs.Seen.{same_party};
ghost use Rattle.party_core.specs.Calls.{posted};
ghost use Rattle.party_core.specs.Doing.{IsMasked, posted_of};

use crate::lists::xored;
use crate::messages::same_party;
use crate::outbox::Outbox;
use crate::pairs::Pair;
use crate::portion::Portion;
use crate::state::{Side, State};
use lanes::{Party, item_laws, shared_ands, xor_into};
use std::alloc::{AllocError, Global};

// A party's new share of an and.
fn and_share(
    alloc: Global,
    left: u32,
    right: u32,
    state: &State,
    portion: &Portion<'_>,
) -> Result<Vec<u64>, AllocError>
    requires { IsMasked state.now left right portion.now }
    ensures { IfOk result (λ share. share.items ≡ and_part (pair_at state.now left) (pair_at state.now right) portion.now) }
{
    item_laws();
    let mut share = shared_ands(
        alloc,
        state.share(Side::Own, left),
        state.share(Side::Following, left),
        state.share(Side::Own, right),
        state.share(Side::Following, right),
    )?
    .into_vec();
    xor_into(&mut share, portion.own_words());
    xor_into(&mut share, portion.following_words());
    Ok(share)
}

/// What a party sends in an And: its new share, to the party before.
pub(crate) fn and_sends(
    alloc: Global,
    left: u32,
    right: u32,
    state: &State,
    portion: &Portion<'_>,
) -> Result<Outbox, AllocError>
    requires { IsMasked state.now left right portion.now }
    ensures { IfOk result (λ out. (v : Party) → posted out ≡ posted_of v (put (before v) (and_part (pair_at state.now left) (pair_at state.now right) portion.now) nothing)) }
{
    let share = and_share(alloc, left, right, state, portion)?;
    Ok(Outbox::to_previous(alloc, share))
}

/// What a party sends in a Share, where it is the one that shares: the share that it gives away, to both others.
pub(crate) fn share_sends(
    alloc: Global,
    party: Party,
    by: Party,
    slot: u32,
    state: &State,
    portion: &Portion<'_>,
) -> Result<Outbox, AllocError>
    ensures { IfOk result (λ out. posted out ≡ posted_of party (when_sent (same_party party by) (to_others party (given_away (item state.now.slots slot) portion.now)))) }
{
    if !same_party(party, by) {
        return Ok(Outbox::empty(alloc));
    }
    let masked = xored(alloc, state.slot(slot), portion.own_words())?;
    let given = xored(alloc, &masked, portion.following_words())?;
    Outbox::to_others(alloc, given)
}

// The pair of words that a party shares: two masks, or a mask and what it gives away.
fn shared_pair(
    alloc: Global,
    party: Party,
    by: Party,
    portion: &Portion<'_>,
) -> Result<Pair, AllocError>
    ensures { IfOk result (λ pair. pair ≡ shared_pair party by portion.now) }
{
    let (own, following) = (portion.own_words(), portion.following_words());
    let got = portion.received(by);
    if same_party(party, by) {
        pair_of(alloc, own, following)
    } else if same_party(party, by.next()) {
        pair_of(alloc, own, got)
    } else {
        pair_of(alloc, got, following)
    }
}

/// Two shares in memory of their own.
pub(crate) fn pair_of(alloc: Global, own: &[u64], following: &[u64]) -> Result<Pair, AllocError>
    ensures { IfOk result (λ pair. pair ≡ record { own = own.now; following = following.now }) }
{
    let own = Vec::from_slice(alloc, own)?;
    Ok(Pair::new(own, Vec::from_slice(alloc, following)?))
}

impl State {
    /// Carries out an And.
    pub(crate) fn push_and(
        &mut self,
        alloc: Global,
        party: Party,
        left: u32,
        right: u32,
        portion: &Portion<'_>,
    ) -> Result<(), AllocError>
        requires { IsMasked self.old left right portion.now }
        ensures done { OnOk result (self.new ≡ with_pairs self.old (record { own = and_part (pair_at self.old left) (pair_at self.old right) portion.now; following = at (next party) portion.now.received } ∷ [])) }
        ensures kept { OnErr result (self.new ≡ self.old) }
    {
        let own = and_share(alloc, left, right, self, portion)?;
        let following = Vec::from_slice(alloc, portion.received(party.next()))?;
        self.push_pair(Pair::new(own, following))
    }

    /// Carries out a Share.
    pub(crate) fn push_share(
        &mut self,
        alloc: Global,
        party: Party,
        by: Party,
        portion: &Portion<'_>,
    ) -> Result<(), AllocError>
        ensures done { OnOk result (self.new ≡ with_pairs self.old (shared_pair party by portion.now ∷ [])) }
        ensures kept { OnErr result (self.new ≡ self.old) }
    {
        let pair = shared_pair(alloc, party, by, portion)?;
        self.push_pair(pair)
    }
}
