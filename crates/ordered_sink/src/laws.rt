//! Laws of rounds. Each law is the contract of a function that does nothing.

ghost use Rattle.std.specs.Prelude.{◌≡◌, ℕ, ◌<◌, ◌≤◌, ◌+◌, ◌++◌, ◌∷◌, [], Contains, Err, List, None, Ok, replicate};
ghost use Rattle.line_pages.specs.Pages.{Page};
ghost use Rattle.ordered_sink.specs.Calls.{Call, Offer, Next, after, first_offered, handed_out, in_order};
ghost use Rattle.ordered_sink.specs.Ordered.{Round, answer, begun, finished, next, no_round};
ghost use Rattle.ordered_sink.specs.declared.offers.Refused.TheVariants.{Beyond, Taken};

/// The pages that were handed out are those of the round's first numbers, in order. Each is the first one offered under its number. The order
/// of the offers and the times at which the next page is asked for don't matter.
pub fn pages_come_in_order()
    ensures { (calls : List Call) (before : Round) (first count : ℕ) →
        handed_out calls (begun before first count)
        ≡ in_order (first_offered calls) first (after calls (begun before first count)).handed }
{}

/// If a page is offered under each number of the round, and then the next one is asked for once a number, all pages come in order. The order
/// of the offers doesn't matter.
pub fn all_pages_come()
    ensures { (calls : List Call) (before : Round) (first count : ℕ) →
        ((n : ℕ) → first ≤ n → n < first + count → (page : Page) × Contains calls (Offer n page)) →
        handed_out (calls ++ replicate count Next) (begun before first count) ≡ in_order (first_offered calls) first count }
{}

/// In a round of the numbers 5 to 7, page 6 comes and waits for page 5. No second page 6 is taken, and 8 and 4 aren't in the round. Then 5
/// and 6 come out in turn, and 7 is missing.
pub fn worked_round()
    ensures taken { (six : Page) → answer (begun (no_round 3) 5 3) 6 six ≡ Ok tt }
    ensures waits { (six : Page) → next (after (Offer 6 six ∷ []) (begun (no_round 3) 5 3)) ≡ None }
    ensures twice { (six other : Page) →
        answer (after (Offer 6 six ∷ Next ∷ []) (begun (no_round 3) 5 3)) 6 other ≡ Err (Taken other) }
    ensures past { (six other : Page) →
        answer (after (Offer 6 six ∷ Next ∷ []) (begun (no_round 3) 5 3)) 8 other ≡ Err (Beyond other) }
    ensures before { (six other : Page) →
        answer (after (Offer 6 six ∷ Next ∷ []) (begun (no_round 3) 5 3)) 4 other ≡ Err (Beyond other) }
    ensures out { (five six other : Page) →
        handed_out
        (Offer 6 six ∷ Next ∷ Offer 6 other ∷ Offer 8 other ∷ Offer 4 other ∷ Offer 5 five ∷ Next ∷ Next ∷ Next ∷ [])
        (begun (no_round 3) 5 3)
        ≡ record { n = 5; page = five } ∷ (record { n = 6; page = six } ∷ []) }
    ensures missing { (five six other : Page) →
        finished (after
        (Offer 6 six ∷ Next ∷ Offer 6 other ∷ Offer 8 other ∷ Offer 4 other ∷ Offer 5 five ∷ Next ∷ Next ∷ Next ∷ [])
        (begun (no_round 3) 5 3))
        ≡ Err (record { first = 7 }) }
{}
