// The laws of contents and of regions, for cells of any kind.

ghost use Rattle.std.specs.Prelude.{◌≡◌, ◌≢◌, ◌↔◌, ◌⊎◌, ℕ, ◌+◌, ◌<◌, ◌≤◌, List, length, map, Some, None, IsSome, is_some, option_map, slice_get};
ghost use Rattle.sq_memory.specs.Cells.{Cells, with_cell, with_cells, cells_from, map_cells, ArePresent, Agree, AllAgree, AgreeOn};
ghost use Rattle.sq_memory.specs.Regions.{Region, get, put, put_all, map_regions};

use std::marker::Brand;

/// What one write does: at its address, at another, and to which addresses are there.
pub fn cell_laws<C>()
    ensures same { (m : Cells C) (x : ℕ) (c : C) → IsSome (m x) → with_cell m x c x ≡ Some c }
    ensures other { (m : Cells C) (x y : ℕ) (c : C) → y ≢ x → with_cell m x c y ≡ m y }
    ensures present { (m : Cells C) (x : ℕ) (c : C) (y : ℕ) → is_some (with_cell m x c y) ≡ is_some (m y) }
    ensures absent { (m : Cells C) (x : ℕ) (c : C) → m x ≡ None → with_cell m x c ≡ m }
    ensures twice { (m : Cells C) (x : ℕ) (c d : C) → with_cell (with_cell m x c) x d ≡ with_cell m x d }
    ensures apart { (m : Cells C) (x y : ℕ) (c d : C) → x ≢ y → with_cell (with_cell m x c) y d ≡ with_cell (with_cell m y d) x c }
{}

/// What a write of a range does, and what stands in one.
pub fn range_laws<C>()
    ensures in_range { (m : Cells C) (x : ℕ) (cs : List C) (i : ℕ) →
        i < length cs → IsSome (m (x + i)) → with_cells m x cs (x + i) ≡ slice_get cs i }
    ensures apart { (m : Cells C) (x : ℕ) (cs : List C) (y : ℕ) →
        (y < x) ⊎ (x + length cs ≤ y) → with_cells m x cs y ≡ m y }
    ensures present { (m : Cells C) (x : ℕ) (cs : List C) (y : ℕ) →
        is_some (with_cells m x cs y) ≡ is_some (m y) }
    ensures exact { (m : Cells C) (x n : ℕ) (cs : List C) →
        (cells_from m x n ≡ Some cs) ↔ ((length cs ≡ n) × ((i : ℕ) → i < n → m (x + i) ≡ slice_get cs i)) }
    ensures present_all { (m : Cells C) (x n : ℕ) → IsSome (cells_from m x n) ↔ ArePresent m x n }
    ensures back { (m : Cells C) (x : ℕ) (cs : List C) →
        ArePresent m x (length cs) → cells_from (with_cells m x cs) x (length cs) ≡ Some cs }
    ensures beside { (m : Cells C) (x : ℕ) (cs : List C) (y n : ℕ) →
        (y + n ≤ x) ⊎ (x + length cs ≤ y) → cells_from (with_cells m x cs) y n ≡ cells_from m y n }
{}

/// A function over the cells, before or after.
pub fn mapped_laws<C, D>()
    ensures put { (f : C → D) (m : Cells C) (x : ℕ) (c : C) → map_cells f (with_cell m x c) ≡ with_cell (map_cells f m) x (f c) }
    ensures put_range { (f : C → D) (m : Cells C) (x : ℕ) (cs : List C) →
        map_cells f (with_cells m x cs) ≡ with_cells (map_cells f m) x (map f cs) }
    ensures get_range { (f : C → D) (m : Cells C) (x n : ℕ) → cells_from (map_cells f m) x n ≡ option_map (map f) (cells_from m x n) }
{}

/// A list of regions is contents, and writes to it and a function over its cells are those of the contents.
pub fn region_laws<C, D>()
    ensures put { (rs : List (Region C)) (x : ℕ) (c : C) → get (put rs x c) ≡ with_cell (get rs) x c }
    ensures put_range { (rs : List (Region C)) (x : ℕ) (cs : List C) → get (put_all rs x cs) ≡ with_cells (get rs) x cs }
    ensures map { (f : C → D) (rs : List (Region C)) → get (map_regions f rs) ≡ map_cells f (get rs) }
    ensures map_put { (f : C → D) (rs : List (Region C)) (x : ℕ) (c : C) →
        put (map_regions f rs) x (f c) ≡ map_regions f (put rs x c) }
{}

/// Two kinds of cells, a relation of cells, and the addresses at which it counts.
pub trait Agreement {
    ghost First: { Type 0 };

    ghost Second: { Type 0 };

    ghost related: { First → Second → Type 0 };

    ghost counts: { ℕ → Type 0 };
}

// Where a caller passes `Brand`, its proof picks the cells and the relation.
impl Agreement for Brand {
    ghost First = { ⊥ };

    ghost Second = { ⊥ };

    ghost related = { λ c d. ⊥ };

    ghost counts = { λ x. ⊥ };
}

/// Contents that agree still agree after related writes, and after a write of one side where nothing counts.
/// The cells of a range agree.
pub fn agreement_laws<A: Agreement>()
    ensures put { (m : Cells A.First) (n : Cells A.Second) (x : ℕ) (c : A.First) (d : A.Second) →
        A.related c d → AgreeOn A.counts A.related m n → AgreeOn A.counts A.related (with_cell m x c) (with_cell n x d) }
    ensures put_range { (m : Cells A.First) (n : Cells A.Second) (x : ℕ) (cs : List A.First) (ds : List A.Second) →
        AllAgree A.related cs ds → AgreeOn A.counts A.related m n →
        AgreeOn A.counts A.related (with_cells m x cs) (with_cells n x ds) }
    ensures first_beside { (m : Cells A.First) (n : Cells A.Second) (x : ℕ) (c : A.First) →
        ¬ A.counts x → AgreeOn A.counts A.related m n → AgreeOn A.counts A.related (with_cell m x c) n }
    ensures second_beside { (m : Cells A.First) (n : Cells A.Second) (x : ℕ) (d : A.Second) →
        ¬ A.counts x → AgreeOn A.counts A.related m n → AgreeOn A.counts A.related m (with_cell n x d) }
    ensures get_range { (m : Cells A.First) (n : Cells A.Second) (x k : ℕ) →
        ((i : ℕ) → i < k → A.counts (x + i)) → AgreeOn A.counts A.related m n →
        Agree (AllAgree A.related) (cells_from m x k) (cells_from n x k) }
{}
