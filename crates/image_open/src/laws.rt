//! What is read of an image, its grammar, and the library that it is opened as.

ghost use Rattle.std.specs.Prelude.{◌≡◌, ◌≤◌, All, List, Some, ℕ, Ok, length};
ghost use Rattle.image_grammar.specs.bc_library.Shelf.{Shelf, no_entries};
ghost use Rattle.image_grammar.specs.bc_library.Texts.{text_numbered};
ghost use Rattle.image_grammar.specs.bc_verify.Verified.{IsVerified};
ghost use Rattle.image_grammar.specs.Base.{IsOpened, base_of};
ghost use Rattle.image_grammar.specs.declared.entry.Entry.{Entry};
ghost use Rattle.image_grammar.specs.declared.fault.ImageFault.{ImageFault};
ghost use Rattle.image_grammar.specs.Image.{IsImage};
ghost use Rattle.image_grammar.specs.Opening as opening;
ghost use Rattle.image_grammar.specs.Opening.{Base, FirstFault};
ghost use Rattle.image_open.specs.Opens.{IsOpenedOf, Opens};

/// Bytes have one reading at most over what lies below, modules or a first fault. Over a library that images are opened as, or over
/// none, they are read as modules exactly where they are an image of these and each is verified.
pub fn image_law()
    ensures one_image { (below : Base) (bytes : List ℕ) (a b : List Entry) → opening.image below bytes (Ok a)
        → opening.image below bytes (Ok b) → a ≡ b }
    ensures one_fault { (below : Base) (bytes : List ℕ) (f g : ImageFault) → FirstFault below bytes f → FirstFault below bytes g → f ≡ g }
    ensures not_both { (below : Base) (bytes : List ℕ) (entries : List Entry) (fault : ImageFault) → opening.image below bytes (Ok entries)
        → FirstFault below bytes fault → ⊥ }
    ensures found { (images : List (List ℕ)) (below : Shelf) (bytes : List ℕ) (entries : List Entry) → IsOpenedOf images below
        → opening.image (base_of below) bytes (Ok entries)
        → IsImage (base_of below) entries bytes × All (λ entry. IsVerified entry.held) entries }
    ensures read { (images : List (List ℕ)) (below : Shelf) (bytes : List ℕ) (entries : List Entry) → IsOpenedOf images below
        → IsImage (base_of below) entries bytes → All (λ entry. IsVerified entry.held) entries
        → opening.image (base_of below) bytes (Ok entries) }
{}

/// What images are opened as, one over another, may lie below a further one, as a library without entries does, over which
/// the first of them lies. Bytes are opened as one library over it. A number means one text in all images above the one that
/// has it.
pub fn over_law()
    ensures nothing { IsOpened no_entries }
    ensures opened { (below : Shelf) (bytes : List ℕ) (shelf : Shelf) → IsOpened below → Opens below bytes shelf → IsOpened shelf }
    ensures one_library { (images : List (List ℕ)) (below : Shelf) (bytes : List ℕ) (a b : Shelf) → IsOpenedOf images below
        → Opens below bytes a → Opens below bytes b → a ≡ b }
    ensures one_text { (below : Shelf) (bytes : List ℕ) (shelf : Shelf) (number : ℕ) (text : List ℕ) → Opens below bytes shelf
        → text_numbered below.pool number ≡ Some text → text_numbered shelf.pool number ≡ Some text }
{}
