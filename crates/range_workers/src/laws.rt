//! Laws of claims and of marks. Each law is the contract of a function that does nothing.

ghost use Rattle.std.specs.Prelude.{◌≡◌, ℕ, ◌<◌, ◌≤◌, ◌+◌, ◌-◌, ◌*◌, ◌^◌, ◌++◌, ◌∷◌, [], All, List, length};
ghost use Rattle.std.specs.List.{flat_map};
ghost use Rattle.pd_outside.specs.Files.{File};
ghost use Rattle.range_workers.specs.Marks.{AreMarksOf, Mark, due_files, texts};
ghost use Rattle.range_workers.specs.Rule.{AreAllBelow, IsDone, KeepsRule, times};
ghost use Rattle.range_workers.specs.Views.{numbers};
ghost use Rattle.range_workers.specs.declared.view.View.{View};
ghost use Rattle.range_workers.specs.declared.view.View.TheVariants.{Caller, Spent, Worker};

/// A new table keeps the rule of claims. So does each step of any seat: a claim, which adds one to the word, a split and a join.
pub fn steps_keep_the_rule()
    ensures new { KeepsRule 0 (Caller [] 0 ∷ []) }
    ensures claim { (word from : ℕ) (ns : List ℕ) (front back : List View) →
        KeepsRule word (front ++ Worker ns from ∷ back) → length ns < 8 →
        KeepsRule (word + 1) (front ++ Worker (ns ++ word ∷ []) from ∷ back) }
    ensures split { (word out : ℕ) (ns : List ℕ) (seats : List View) →
        KeepsRule word (Caller ns out ∷ seats) → out < 64 →
        KeepsRule word (Caller ns (out + 1) ∷ (seats ++ Worker [] (length ns) ∷ [])) }
    ensures join { (word out from : ℕ) (ns ms : List ℕ) (front back : List View) →
        KeepsRule word (Caller ns out ∷ (front ++ Worker ms from ∷ back)) → length ns ≤ 2 ^ 62 - 8 →
        KeepsRule word (Caller (ns ++ ms) (out - 1) ∷ (front ++ Spent ∷ back)) }
{}

/// By the rule, a number that a seat has is below the word. The seat has it once, and no other seat has it.
pub fn a_number_is_claimed_once()
    ensures { (word n : ℕ) (one other : View) (front between back : List View) →
        KeepsRule word (front ++ one ∷ (between ++ other ∷ back)) → 0 < times n (numbers one) + times n (numbers other) →
        (n < word) × (times n (numbers one) + times n (numbers other) ≡ 1) }
{}

/// By the rule, the caller has all numbers below the word if no worker is out. The word never reaches the end of its type.
pub fn all_numbers_come_back()
    ensures all { (word : ℕ) (ns : List ℕ) (seats : List View) → KeepsRule word (Caller ns 0 ∷ seats) → AreAllBelow word ns }
    ensures end { (word : ℕ) (views : List View) → KeepsRule word views → word ≤ 2 ^ 62 + 512 }
{}

/// If each worker has eight numbers or one past a round of four numbers a worker, all numbers of the round were claimed.
pub fn a_round_is_claimed_whole()
    ensures { (word out : ℕ) (ns : List ℕ) (seats : List View) →
        KeepsRule word (Caller ns out ∷ seats) → All (IsDone (length ns + 4 * out)) seats → length ns + 4 * out ≤ word }
{}

/// Two workers claim 0, 1 and 2 in turns. The rule refuses a number that two workers have, the number of the word, and a missing number. Then
/// their numbers come back.
pub fn worked_claims()
    ensures claimed { KeepsRule 3 (Caller [] 2 ∷ (Worker (0 ∷ (2 ∷ [])) 0 ∷ (Worker (1 ∷ []) 0 ∷ []))) }
    ensures twice { KeepsRule 3 (Caller [] 2 ∷ (Worker (0 ∷ (2 ∷ [])) 0 ∷ (Worker (2 ∷ []) 0 ∷ []))) → ⊥ }
    ensures past { KeepsRule 3 (Caller [] 2 ∷ (Worker (0 ∷ (3 ∷ [])) 0 ∷ (Worker (1 ∷ []) 0 ∷ []))) → ⊥ }
    ensures lost { KeepsRule 3 (Caller [] 2 ∷ (Worker (0 ∷ []) 0 ∷ (Worker (1 ∷ []) 0 ∷ []))) → ⊥ }
    ensures back { KeepsRule 3 (Caller (0 ∷ (2 ∷ (1 ∷ []))) 0 ∷ (Spent ∷ (Spent ∷ []))) }
{}

/// The due files, one after the other, have the texts of all packages, each once and in order.
pub fn due_files_have_all_texts()
    ensures { (text : ℕ → List ℕ) (count : ℕ) (marks : List Mark) →
        AreMarksOf count marks → flat_map (λ (file : File). file.bytes) (due_files text count marks) ≡ texts text 0 count }
{}
