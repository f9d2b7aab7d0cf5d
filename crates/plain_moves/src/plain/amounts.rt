//! Amounts of frames in one place, and how moves change them.

ghost use Rattle.std.specs.Prelude.{◌≡◌, ◌+◌, ◌<◌, ◌^◌};
ghost use Rattle.frame_model.specs.View.{counted, count_in};
ghost use Rattle.frame_model.specs.Steps.Amounts.{more, less, rest_amount, rest_tree};

use frame_model::Amount;

/// So many frames of the place; none of them is no amount.
#[tactic(auto, unfolding(frame_model::specs::View::counted))]
pub(crate) fn amount_of(place: u32, count: u32) -> Option<Amount>
    ensures { result ≡ counted place count }
{
    if count == 0 {
        return None;
    }
    Some(Amount { place, count })
}

/// `n` frames more in the place.
#[tactic(auto, unfolding(frame_model::specs::View::count_in, frame_model::specs::Steps::Amounts::more))]
pub(crate) fn with_more(amount: Option<Amount>, place: u32, n: u32) -> Option<Amount>
    requires { count_in place amount + n < 2 ^ 32 }
    ensures { result ≡ more place n amount }
{
    match amount {
        None => amount_of(place, n),
        Some(some) if some.place == place => amount_of(place, some.count + n),
        Some(_) => amount,
    }
}

/// `n` frames less in the place.
#[tactic(auto, unfolding(frame_model::specs::Steps::Amounts::less))]
pub(crate) fn with_less(amount: Option<Amount>, place: u32, n: u32) -> Option<Amount>
    ensures { result ≡ less place n amount }
{
    match amount {
        Some(some) if some.place == place => amount_of(place, some.count.saturating_sub(n)),
        _ => amount,
    }
}

/// The frames of a reservation, as an amount of its tree.
#[tactic(auto, unfolding(frame_model::specs::Steps::Amounts::rest_amount))]
pub(crate) fn amount_in(rest: Option<(u32, u32)>) -> Option<Amount>
    ensures { result ≡ rest_amount rest }
{
    match rest {
        None => None,
        Some((tree, n)) => amount_of(tree, n),
    }
}

/// The tree of a reservation.
pub(crate) fn tree_in(rest: Option<(u32, u32)>) -> Option<u32>
    ensures { result ≡ rest_tree rest }
{
    match rest {
        None => None,
        Some((tree, _)) => Some(tree),
    }
}
