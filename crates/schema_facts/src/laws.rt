//! Laws of the definitions that the contracts cite. Each law is the contract of a function without a body.

ghost use Rattle.std.specs.Prelude.{◌≡◌, ◌^◌, ◌∷◌, [], ℤ, Some, None, map, neg_ℤ, pos};
ghost use Rattle.schema_facts.specs.ColumnFacts.{field_facts};
ghost use Rattle.schema_facts.specs.Days.{days_after, days_between};
ghost use Rattle.schema_facts.specs.Ends.{AddsWithin, FollowsWithin, MultipliesWithin};
ghost use Rattle.schema_facts.specs.Layout.{layout_of};
ghost use Rattle.schema_facts.specs.Lineage.{longest_life, sure_life};
ghost use Rattle.schema_facts.specs.Numbers.{product_of, sum_of};
ghost use Rattle.schema_facts.specs.TableFacts.{cost, line_of_table, max_line, reach};
ghost use Rattle.schema_facts.specs.declared.days.Days.{Days};
ghost use Rattle.schema_facts.specs.declared.numbers.Numbers.{Numbers};
ghost use Rattle.schema_facts.specs.Worked.{doubles, drawn, drawn_project, dues, eight_times, people, places, sales, sizes_of, talks};

/// Lives worked out by hand. Orders can name a customer who is two units older, and lines an order of their own unit. Rows
/// of tables without lives and parents have no end, and neither do rows that outlive their parents.
pub fn worked_lives()
    ensures customer { sure_life (layout_of sales).tables 0 ≡ Some 3 }
    ensures orders { sure_life (layout_of sales).tables 1 ≡ Some 1 }
    ensures lines { sure_life (layout_of sales).tables 2 ≡ Some 1 }
    ensures customer_at_most { longest_life (layout_of sales).tables 0 ≡ Some 3 }
    ensures orders_at_most { longest_life (layout_of sales).tables 1 ≡ Some 3 }
    ensures lines_at_most { longest_life (layout_of sales).tables 2 ≡ Some 3 }
    ensures city { sure_life (layout_of places).tables 0 ≡ None }
    ensures house { sure_life (layout_of places).tables 1 ≡ None }
    ensures house_at_most { longest_life (layout_of places).tables 1 ≡ None }
    ensures remark { sure_life (layout_of talks).tables 1 ≡ None }
    ensures remark_at_most { longest_life (layout_of talks).tables 1 ≡ None }
{}

/// Costs worked out by hand. A remark's change, and each field that shows the customer, asks whether the customer is dead.
pub fn worked_costs()
    ensures customer { cost (layout_of sales) 0 ≡ 3 }
    ensures orders { cost (layout_of sales) 1 ≡ 5 }
    ensures lines { cost (layout_of sales) 2 ≡ 6 }
    ensures city { cost (layout_of places) 0 ≡ 2 }
    ensures house { cost (layout_of places) 1 ≡ 9 }
    ensures remark { cost (layout_of talks) 1 ≡ 7 }
{}

/// Costs worked out by hand where all references are drawn. Each choice of a parent costs one permutation more.
pub fn worked_drawn_costs()
    ensures customer { cost (layout_of (drawn_project sales)) 0 ≡ 3 }
    ensures orders { cost (layout_of (drawn_project sales)) 1 ≡ 7 }
    ensures lines { cost (layout_of (drawn_project sales)) 2 ≡ 9 }
    ensures city { cost (layout_of (drawn_project places)) 0 ≡ 2 }
    ensures house { cost (layout_of (drawn_project places)) 1 ≡ 14 }
    ensures remark { cost (layout_of (drawn_project talks)) 1 ≡ 10 }
{}

/// Sizes worked out by hand. A tab and a backslash are written as two bytes each. The words of a text have spaces between.
pub fn worked_sizes()
    ensures customer { max_line (layout_of sales) 0 ≡ 33 }
    ensures orders { max_line (layout_of sales) 1 ≡ 42 }
    ensures most { reach (layout_of sales) ≡ 42 }
    ensures fields { map (sizes_of (layout_of places)) (layout_of places).tables
        ≡ (20 ∷ 6 ∷ 6 ∷ 15 ∷ []) ∷ (20 ∷ 20 ∷ 6 ∷ 40 ∷ []) ∷ [] }
    ensures words { map (sizes_of (layout_of people)) (layout_of people).tables ≡ (20 ∷ 5 ∷ 17 ∷ []) ∷ [] }
{}

/// Costs and sizes worked out by hand where dates follow dates and numbers are added. A lookup asks its parent's place, and what is made of
/// it asks the same, each time that it is named.
pub fn worked_costs_of_others()
    ensures customer { cost (layout_of dues) 0 ≡ 3 }
    ensures orders { cost (layout_of dues) 1 ≡ 7 }
    ensures counted { cost (layout_of doubles) 0 ≡ 3 }
    ensures doubled { cost (layout_of doubles) 1 ≡ 8 }
    ensures lines { map (line_of_table (layout_of dues)) (layout_of dues).tables ≡ 44 ∷ 64 ∷ [] }
    ensures number_lines { map (line_of_table (layout_of doubles)) (layout_of doubles).tables ≡ 54 ∷ 85 ∷ [] }
{}

/// Days worked out by hand: those of a due order, and those past the calendar.
pub fn worked_days()
    ensures due { (field_facts (layout_of dues) 1 3).days ≡ Some (record { least = pos 19781; greatest = pos 19790 }) }
    ensures before_year_1 { days_between (neg_ℤ (pos 719163)) (pos 0) ≡ None }
    ensures past_year_9999 { days_after (pos 0) (pos 1) (record { least = pos 0; greatest = pos 2932896 }) ≡ None }
{}

/// Numbers worked out by hand. The greatest square of 64 bits with a sign is that of 3,037,000,499. An operand counts with the digits of
/// the sum. A sum leaves the range on its way or not, by the order of its operands. At most 64 drawn values are read.
pub fn worked_numbers()
    ensures doubled { (field_facts (layout_of doubles) 1 3).numbers ≡ Some (record { decimals = 0; least = pos 6; greatest = pos 6; reads = 2 }) }
    ensures ten_digits { product_of (drawn 5 (pos 0) (pos 1) ∷ drawn 5 (pos 0) (pos 1) ∷ []) ≡ None }
    ensures square { product_of (drawn 0 (pos 0) (pos 3037000499) ∷ drawn 0 (pos 0) (pos 3037000499) ∷ [])
        ≡ Some (record { decimals = 0; least = pos 0; greatest = pos 9223372030926249001; reads = 2 }) }
    ensures greater_square { product_of (drawn 0 (pos 0) (pos 3037000500) ∷ drawn 0 (pos 0) (pos 3037000500) ∷ []) ≡ None }
    ensures signs { product_of (drawn 2 (neg_ℤ (pos 5)) (pos 7) ∷ drawn 0 (neg_ℤ (pos 3)) (pos 2) ∷ [])
        ≡ Some (record { decimals = 2; least = neg_ℤ (pos 21); greatest = pos 15; reads = 2 }) }
    ensures scaled { sum_of (drawn 2 (neg_ℤ (pos 5)) (neg_ℤ (pos 5)) ∷ drawn 3 (pos 50) (pos 50) ∷ [])
        ≡ Some (record { decimals = 3; least = pos 0; greatest = pos 0; reads = 2 }) }
    ensures scaled_past_the_end { sum_of (drawn 0 (pos 0) (pos 9223372037) ∷ drawn 9 (pos 0) (pos 0) ∷ []) ≡ None }
    ensures on_its_way { sum_of (drawn 0 (pos (2 ^ 62)) (pos (2 ^ 62)) ∷ drawn 0 (pos (2 ^ 62)) (pos (2 ^ 62)) ∷ drawn 0 (neg_ℤ (pos (2 ^ 62))) (neg_ℤ (pos (2 ^ 62))) ∷ []) ≡ None }
    ensures in_another_order { sum_of (drawn 0 (pos (2 ^ 62)) (pos (2 ^ 62)) ∷ drawn 0 (neg_ℤ (pos (2 ^ 62))) (neg_ℤ (pos (2 ^ 62))) ∷ drawn 0 (pos (2 ^ 62)) (pos (2 ^ 62)) ∷ [])
        ≡ Some (record { decimals = 0; least = pos (2 ^ 62); greatest = pos (2 ^ 62); reads = 3 }) }
    ensures least_of_64_bits { sum_of (drawn 0 (neg_ℤ (pos (2 ^ 63))) (neg_ℤ (pos (2 ^ 63))) ∷ []) ≡ None }
    ensures reads { eight_times (eight_times (drawn 0 (pos 0) (pos 0))) ≡ Some (record { decimals = 0; least = pos 0; greatest = pos 0; reads = 64 }) }
    ensures one_read_more { sum_of (eight_times (eight_times (drawn 0 (pos 0) (pos 0))) ∷ drawn 0 (pos 0) (pos 0) ∷ []) ≡ None }
{}

/// Numbers stay within what facts tell of sums, at each step. So they stay within 64 bits, whatever the operands are.
pub fn sums_stay_within_their_numbers()
    ensures { (so_far operand total : Numbers) → AddsWithin so_far operand total }
{}

/// And of products.
pub fn products_stay_within_their_numbers()
    ensures { (so_far operand total : Numbers) → MultipliesWithin so_far operand total }
{}

/// Dates after dates stay within the days that facts tell, and so in the calendar.
pub fn later_dates_stay_within_their_days()
    ensures { (days later : Days) (lo hi : ℤ) → FollowsWithin days lo hi later }
{}
