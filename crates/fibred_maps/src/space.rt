// What stands for a fibred space.
ghost use Rattle.fibred_maps.specs.Fibred.{Fibred};

use chain_core::Source;

/// A fibred space, with the names B of its pairs, M of its tensors and N of its small cells in the code. Its questions are asks of a source.
///
/// A type that stands for a space of a kind, such as a product, says by this which space each of its values is.
pub trait FibredSpace<S: Source, B, M, N> {
    /// Base, fibre and twist, and the names of the code.
    ghost of: { Self → Fibred B M N S.Ask };
}
