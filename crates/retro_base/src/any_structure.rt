//! The trait of one type over the structures of all kinds.

ghost use Rattle.std.specs.Prelude.{◌≡◌, Bool, [], true};
ghost use Rattle.retro_base.specs.declared.kind.Kind.TheVariants.{Pq};

use crate::{Kind, Retro};
use std::alloc::Global;

/// One type over the structures of all kinds, of which one is made for each timeline. Who makes them by this trait need not know the
/// types of these structures.
pub trait AnyStructure: Retro + Drop {
    /// Whether it is the priority queue whose past is one product.
    ghost is_fused: { Self → Bool };

    /// A structure of the kind, without rows. A priority queue has two: the one whose past is one product, where `fused` asks for it,
    /// and else that by checkpoints.
    fn empty(alloc: Global, kind: Kind, fused: bool) -> Self
        requires { fused ≡ true → kind ≡ Pq }
        ensures kind { Self.kind result ≡ kind }
        ensures rows { Self.rows result ≡ [] }
        ensures variant { is_fused result ≡ fused };
}
