//! What a search over items owes: the traits.
ghost use Rattle.std.specs.Prelude.{◌≡◌, ◌∷◌, [], Bool, List};
ghost use Rattle.lifetime_segments.specs.Ordered.{IsOrder};
ghost use Rattle.lifetime_segments.specs.Lawful.{IsLawful, IsAnswer, AnswerTogether, RangeLaws, SearchLaws};

use monoid_laws::Measured;
use weighted_tree::Tree;

/// A search whose answer over some items can be combined of its answers over two parts of them.
///
/// Items stand in an order of their own. Equal items may stand side by side.
pub trait Decomposable {
    /// What is searched.
    type Item: Measured;

    /// What is asked.
    type Query: Copy;

    /// An answer over some of the items.
    type Part: Copy;

    /// Whether the first item stands before the second.
    ghost stands_before: { Self.Item → Self.Item → Bool };

    /// The answer over a list of items in their order.
    ghost answer: { List Self.Item → Self.Query → Self.Part };

    /// The answer over no items.
    ghost empty_part: { Self.Part };

    /// The answer over the items of two answers together.
    ghost combined: { Self.Part → Self.Part → Self.Part };

    /// Whether the first item stands before the second.
    fn before(first: &Self::Item, second: &Self::Item) -> bool
        ensures { result ≡ stands_before first.now second.now };

    /// The answer over no items.
    fn empty() -> Self::Part
        ensures { result ≡ empty_part };

    /// The answer over these items.
    fn ask(items: &Tree<Self::Item>, query: Self::Query) -> Self::Part
        requires lawful { IsLawful stands_before items.now }
        ensures { result ≡ answer items.now query };

    /// The answer over the items of two answers to one query, together.
    fn combine(first: Self::Part, second: Self::Part) -> Self::Part
        requires together { AnswerTogether stands_before answer first second }
        ensures { result ≡ combined first second };

    /// The order is strict and total.
    ghost order: { IsOrder stands_before };

    /// Answers combine, in any order, and `empty` changes nothing.
    ghost laws: { SearchLaws stands_before answer empty_part combined };
}

/// A search whose queries have a lower and an upper end in the order, and which adds one item to an answer: a span that keeps
/// few lifetimes is asked so.
pub trait RangeSearch: Decomposable {
    /// Whether an item stands below the lower end of a query.
    ghost below: { Self.Query → Self.Item → Bool };

    /// Whether an item stands above the upper end of a query.
    ghost above: { Self.Query → Self.Item → Bool };

    /// Whether an item stands below the lower end of a query.
    fn is_below(item: &Self::Item, query: Self::Query) -> bool
        ensures { result ≡ below query item.now };

    /// Whether an item stands above the upper end of a query.
    fn is_above(item: &Self::Item, query: Self::Query) -> bool
        ensures { result ≡ above query item.now };

    /// The answer over the items of an answer to the query, and one more.
    fn with_one(part: Self::Part, item: &Self::Item, query: Self::Query) -> Self::Part
        requires answer { IsAnswer Self.stands_before Self.answer query part }
        ensures { result ≡ Self.combined part (Self.answer (item.now ∷ []) query) };

    /// What is below and above goes with the order, and items that are all below, or all above, answer as none do.
    ghost range_laws: { RangeLaws Self.stands_before Self.answer below above };
}
