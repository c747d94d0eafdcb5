//! Laws of the tree of offices and its keys. Each function does nothing: its contract is the law.

ghost use Rattle.std.specs.Prelude.{◌≡◌, ◌↔◌, ℕ, ◌≤◌, ◌==◌, ◌||◌, Bool, true, false, List, Option, Some, None, codes};
ghost use Rattle.mf_office.specs.Tree.{AreOneTree, IsTreeOf, AddsOffice, IsAtOrBelow, is_within, is_at_or_below};
ghost use Rattle.mf_office.specs.Tree.{option_any, parent_among, small_tree};
ghost use Rattle.mf_office.specs.Written.{caller_text, account_text};
ghost use Rattle.mf_office.specs.Texts.{caller_of, account_of};
ghost use Rattle.mf_office.specs.Keys.{GrowsByParents, key_of, key_depth, head_key, child_key, with_last_raised};
ghost use Rattle.mf_office.specs.Keys.{is_in_range, EndsWithDot};

/// In a tree an office is at or below another exactly where it is that office, or its parent is at or below it,
/// however many steps that takes.
pub fn at_or_below_by_parents()
    ensures sentence { (there : ℕ → Bool) (parents : ℕ → Option ℕ) → IsTreeOf there parents → (x y : ℕ) → there x ≡ true
        →
        is_at_or_below parents x y ≡ ((x == y) || option_any (parents x) (λ p. is_at_or_below parents p y)) }
    ensures unbounded { (there : ℕ → Bool) (parents : ℕ → Option ℕ) → IsTreeOf there parents → (x y : ℕ)
        → there x ≡ true →
        (is_at_or_below parents x y ≡ true) ↔ IsAtOrBelow parents y x }
{}

/// In a tree the head's key is `.`, and a child's is its parent's, its own number and `.`. Every key ends with a dot,
/// and no two offices have the same.
pub fn key_by_parents()
    ensures head { (there : ℕ → Bool) (parents : ℕ → Option ℕ) → IsTreeOf there parents → key_of parents 1 ≡ head_key }
    ensures child { (there : ℕ → Bool) (parents : ℕ → Option ℕ) → IsTreeOf there parents → (x p : ℕ) → there x ≡ true
        → parents x ≡ Some p →
        key_of parents x ≡ child_key (key_of parents p) x }
    ensures dot { (parents : ℕ → Option ℕ) (x : ℕ) → EndsWithDot (key_of parents x) }
    ensures apart { (there : ℕ → Bool) (parents : ℕ → Option ℕ) → IsTreeOf there parents → (x y : ℕ) → there x ≡ true
        → there y ≡ true →
        key_of parents x ≡ key_of parents y → x ≡ y }
{}

/// In a tree the range of an office's key selects the keys of the offices at or below it, and no other office's.
pub fn range_is_subtree()
    ensures { (there : ℕ → Bool) (parents : ℕ → Option ℕ) → IsTreeOf there parents → (x y : ℕ) → there x ≡ true
        → there y ≡ true →
        is_in_range (key_of parents y) (with_last_raised (key_of parents y)) (key_of parents x) ≡ is_at_or_below parents
        x y }
{}

/// An office put under one that is at most five deep leaves a tree. Of the offices that were there, it changes neither
/// who is at or below whom nor any key.
pub fn tree_with_an_office_more()
    ensures tree { (there there_after : ℕ → Bool) (parents parents_after : ℕ → Option ℕ) (number p : ℕ)
        → IsTreeOf there parents → AddsOffice there parents number p there_after parents_after →
        IsTreeOf there_after parents_after }
    ensures below { (there there_after : ℕ → Bool) (parents parents_after : ℕ → Option ℕ) (number p : ℕ)
        → IsTreeOf there parents → AddsOffice there parents number p there_after parents_after →
        (x y : ℕ) → there x ≡ true → is_at_or_below parents_after x y ≡ is_at_or_below parents x y }
    ensures new_below { (there there_after : ℕ → Bool) (parents parents_after : ℕ → Option ℕ) (number p : ℕ)
        → IsTreeOf there parents → AddsOffice there parents number p there_after parents_after →
        (y : ℕ) → is_at_or_below parents_after number y ≡ ((number == y) || is_at_or_below parents p y) }
    ensures keys { (there there_after : ℕ → Bool) (parents parents_after : ℕ → Option ℕ) (number p : ℕ)
        → IsTreeOf there parents → AddsOffice there parents number p there_after parents_after →
        (x : ℕ) → there x ≡ true → key_of parents_after x ≡ key_of parents x }
    ensures new_key { (there there_after : ℕ → Bool) (parents parents_after : ℕ → Option ℕ) (number p : ℕ)
        → IsTreeOf there parents → AddsOffice there parents number p there_after parents_after →
        key_of parents_after number ≡ child_key (key_of parents p) number }
{}

/// In a tree a key has at most six dots, and at most five where there is room below its office.
pub fn depth_by_key()
    ensures most { (there : ℕ → Bool) (parents : ℕ → Option ℕ) → IsTreeOf there parents → (x : ℕ) → there x ≡ true
        → key_depth (key_of parents x) ≤ 6 }
    ensures room { (there : ℕ → Bool) (parents : ℕ → Option ℕ) → IsTreeOf there parents → (x : ℕ) → there x ≡ true →
        (key_depth (key_of parents x) ≤ 5) ↔ (is_within 4 parents x 1 ≡ true) }
{}

/// Texts that grow by parents, with at most six dots, stand for offices that are a tree, and are its keys: exactly
/// then.
pub fn tree_by_its_keys()
    ensures { (there : ℕ → Bool) (parents : ℕ → Option ℕ) (text : ℕ → List ℕ) →
        GrowsByParents there parents text ↔ (IsTreeOf there parents × ((x : ℕ) → there x ≡ true
        → text x ≡ key_of parents x)) }
{}

/// An office with number 2 under the head, 20 beside it, and 5 under 2.
pub fn worked_rows()
    ensures tree { AreOneTree small_tree }
    ensures head { (key_of (parent_among small_tree) 1 ≡ codes ".") × (with_last_raised (codes ".") ≡ codes "/") }
    ensures keys { (key_of (parent_among small_tree) 2 ≡ codes ".2.")
        × (key_of (parent_among small_tree) 20 ≡ codes ".20.")
        × (key_of (parent_among small_tree) 5 ≡ codes ".2.5.") }
    ensures range { with_last_raised (codes ".2.") ≡ codes ".2/" }
    ensures below { is_in_range (codes ".2.") (codes ".2/") (codes ".2.5.") ≡ true }
    ensures beside { is_in_range (codes ".2.") (codes ".2/") (codes ".20.") ≡ false }
    ensures above { is_in_range (codes ".2.") (codes ".2/") (codes ".") ≡ false }
    ensures all { (is_in_range (codes ".") (codes "/") (codes ".20.") ≡ true)
        × (is_in_range (codes ".") (codes "/") (codes ".") ≡ true) }
    ensures by_parents { (is_at_or_below (parent_among small_tree) 5 2 ≡ true)
        × (is_at_or_below (parent_among small_tree) 20 2 ≡ false)
        × (is_at_or_below (parent_among small_tree) 20 1 ≡ true) }
    ensures caller { (caller_text 7 3 ≡ codes "7/3")
        × (caller_of (codes "7/3") ≡ Some (record { office = 7; staff = 3 })) }
    ensures no_caller { (caller_of (codes "01/1") ≡ None) × (caller_of (codes "0/1") ≡ None)
        × (caller_of (codes "1/10000") ≡ None) × (caller_of (codes "7") ≡ None) }
    ensures account { (account_text 1 1 ≡ codes "0001-000001")
        × (account_of (codes "0020-000009") ≡ Some (record { office = 20; number = 9 })) }
    ensures no_account { (account_of (codes "1-1") ≡ None) × (account_of (codes "0000-000001") ≡ None)
        × (account_of (codes "0001-000000") ≡ None) }
{}
