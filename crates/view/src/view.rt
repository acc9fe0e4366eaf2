// An accepted file.
ghost use Rattle.view.specs.Systems.{LaidOut};

use system::Layout;

// A file, and where the parts of its system stand. No `impl Model`: its value would be a system, whose expressions are
// a family over their kind, and for such a type the logic has no code to store it by.
#[derive(Clone, Copy)]
pub struct View<'a> {
    pub file: &'a [u8],
    pub layout: Layout,
    ghost laid_out: { ∥ LaidOut file.now layout ∥₁ },
}
