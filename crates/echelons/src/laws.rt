// The laws of reduced echelon bases over F_p (linear algebra, any text).
ghost use Rattle.std.specs.Prelude.{◌≡◌, ◌↔◌, ℕ, Bool, true, ◌&&◌, ◌+◌, List, length};
ghost use Rattle.std.specs.List.{All};
ghost use Rattle.fp_field.specs.Field.{number};
ghost use Rattle.echelons.specs.Echelon.{Vector, IsVector, at_place, zeros, vector_plus, combined, lead, in_span, in_kernel, in_null_space, is_clear, reduced_basis, complement, IsSubspace, IsReducedEchelon, IsCombination, Spans, coordinates, remainder, IsSplitOnce};

use fp_field::Prime;

/// A subspace has one reduced echelon list of rows that spans it, its reduced echelon basis.
/// It does nothing; its clauses are the law.
pub fn echelon_is_unique(p: Prime)
    ensures one { (w : ℕ) (rows others : List Vector) (within : Vector → Bool)
        → IsReducedEchelon (number p) w rows → IsReducedEchelon (number p) w others
        → Spans (number p) w rows within → Spans (number p) w others within → rows ≡ others }
    ensures basis { (w : ℕ) (rows : List Vector) (within : Vector → Bool)
        → IsReducedEchelon (number p) w rows → Spans (number p) w rows within → rows ≡ reduced_basis (number p) w within }
{
    let _ = p;
}

/// A combination of reduced echelon rows has its coefficients at the leading places. So a vector is in
/// the span exactly where nothing is left of it after that combination, and what is left is 0 at the
/// leading places. It does nothing; its clauses are the law.
pub fn echelon_coordinates(p: Prime)
    ensures coefficients { (w : ℕ) (rows : List Vector) (coefficients : Vector)
        → IsReducedEchelon (number p) w rows → IsVector (number p) (length rows) coefficients
        → coordinates rows (combined (number p) w coefficients rows) ≡ coefficients }
    ensures span { (w : ℕ) (rows : List Vector) (v : Vector)
        → IsReducedEchelon (number p) w rows → IsVector (number p) w v
        → IsCombination (number p) w rows v ↔ (remainder (number p) w rows v ≡ zeros w) }
    ensures place { (w : ℕ) (rows : List Vector) (v : Vector)
        → IsReducedEchelon (number p) w rows → IsVector (number p) w v
        → IsCombination (number p) w rows v ↔ (lead (remainder (number p) w rows v) ≡ w) }
    ensures sum { (w : ℕ) (rows : List Vector) (v : Vector)
        → IsReducedEchelon (number p) w rows → IsVector (number p) w v
        → vector_plus (number p) (remainder (number p) w rows v) (combined (number p) w (coordinates rows v) rows) ≡ v }
    ensures clear { (w : ℕ) (rows : List Vector) (v : Vector)
        → IsReducedEchelon (number p) w rows → IsVector (number p) w v
        → All (λ r. at_place (remainder (number p) w rows v) (lead r) ≡ 0) rows }
{
    let _ = p;
}

/// The reduced echelon basis of a subspace is a reduced echelon list that spans it. The span of vectors,
/// the kernel of a linear map and the null space of a matrix are subspaces.
/// It does nothing; its clauses are the law.
pub fn subspace_bases(p: Prime)
    ensures echelon { (w : ℕ) (within : Vector → Bool) → IsSubspace (number p) w within
        → IsReducedEchelon (number p) w (reduced_basis (number p) w within) }
    ensures spans { (w : ℕ) (within : Vector → Bool) → IsSubspace (number p) w within
        → Spans (number p) w (reduced_basis (number p) w within) within }
    ensures vectors { (w : ℕ) (vs : List Vector) → Spans (number p) w vs (in_span (number p) w vs) }
    ensures spanned { (w : ℕ) (vs : List Vector) (within : Vector → Bool)
        → All (IsVector (number p) w) vs → Spans (number p) w vs within → IsSubspace (number p) w within }
    ensures kernel { (w : ℕ) (images : List Vector) → All (IsVector (number p) w) images
        → IsSubspace (number p) (length images) (in_kernel (number p) w images) }
    ensures null_space { (w : ℕ) (rows : List Vector) → IsSubspace (number p) w (in_null_space (number p) rows) }
{
    let _ = p;
}

/// For a subspace in another: the vectors of the larger that are 0 at the leading places of the smaller
/// have the complement as reduced echelon basis, and each vector of the larger is in exactly one way a
/// combination of the complement and a vector of the smaller. It does nothing; its clauses are the law.
pub fn echelon_complement(p: Prime)
    ensures clear { (w : ℕ) (rows : List Vector) (part : Vector → Bool) (v : Vector)
        → IsReducedEchelon (number p) w rows → Spans (number p) w rows part
        → (is_clear (number p) w part v ≡ true) ↔ All (λ r. at_place v (lead r) ≡ 0) rows }
    ensures subspace { (w : ℕ) (whole part : Vector → Bool)
        → IsSubspace (number p) w whole
        → IsSubspace (number p) w (λ v. whole v && is_clear (number p) w part v) }
    ensures echelon { (w : ℕ) (whole part : Vector → Bool)
        → IsSubspace (number p) w whole
        → IsReducedEchelon (number p) w (complement (number p) w whole part) }
    ensures spans { (w : ℕ) (whole part : Vector → Bool)
        → IsSubspace (number p) w whole
        → Spans (number p) w (complement (number p) w whole part) (λ v. whole v && is_clear (number p) w part v) }
    ensures once { (w : ℕ) (whole part : Vector → Bool)
        → IsSubspace (number p) w whole → IsSubspace (number p) w part
        → ((v : Vector) → IsVector (number p) w v → part v ≡ true → whole v ≡ true)
        → (v : Vector) → IsVector (number p) w v → whole v ≡ true
        → IsSplitOnce (number p) w (complement (number p) w whole part) part v }
{
    let _ = p;
}

/// The rows over which a subspace splits once over a smaller one are as many as its reduced echelon
/// basis has more rows than that of the smaller. The kernel and the image of a linear map have together
/// as many basis vectors as it has images of unit vectors. So the length of a homology list is a number
/// of unit vectors minus two ranks. It does nothing; its clauses are the law.
pub fn echelon_counts(p: Prime)
    ensures split { (w : ℕ) (whole part : Vector → Bool)
        → IsSubspace (number p) w whole → IsSubspace (number p) w part
        → ((v : Vector) → IsVector (number p) w v → part v ≡ true → whole v ≡ true)
        → (rows : List Vector) → All (IsVector (number p) w) rows → All (λ r. whole r ≡ true) rows
        → ((v : Vector) → IsVector (number p) w v → whole v ≡ true → IsSplitOnce (number p) w rows part v)
        → length rows + length (reduced_basis (number p) w part) ≡ length (reduced_basis (number p) w whole) }
    ensures rank { (w : ℕ) (images : List Vector) → All (IsVector (number p) w) images
        → length (reduced_basis (number p) (length images) (in_kernel (number p) w images))
        + length (reduced_basis (number p) w (in_span (number p) w images)) ≡ length images }
    ensures homology { (w : ℕ) (images boundaries : List Vector) → All (IsVector (number p) w) images
        → All (IsVector (number p) (length images)) boundaries → All (λ v. in_kernel (number p) w images v ≡ true) boundaries
        → length (complement (number p) (length images) (in_kernel (number p) w images) (in_span (number p) (length images) boundaries))
        + length (reduced_basis (number p) w (in_span (number p) w images))
        + length (reduced_basis (number p) (length images) (in_span (number p) (length images) boundaries)) ≡ length images }
{
    let _ = p;
}
