// What holds of the image of every book: the check asks for the proofs here.
ghost use Rattle.std.specs.Prelude.{◌≡◌, ℕ, ◌*◌, ◌<◌, ◌≤◌, List, Ok, length, slice_index};
ghost use Rattle.std.proofs.Math.ListN.{replicate};
ghost use Rattle.books.specs.Kept.{Kept};
ghost use Rattle.books.specs.Laws.{Sound};
ghost use Rattle.books.specs.Lists.{new_kept};
ghost use Rattle.imagebook.specs.Images.{image_read, opened, image_of, Imaged};

// What a book keeps is read back from its image; bytes that are read are the image of what they mean; and zeros are the image of a new book.
pub fn image_law()
    ensures imaged { (k : Kept) → Sound k → Imaged k }
    ensures read { (bs : List ℕ) (u : ℕ) → ((i : ℕ) → slice_index bs i < 256) → image_read bs ≡ Ok u → Sound (opened bs) × (image_of (opened bs) ≡ bs) }
    ensures cleared { (n : ℕ) → image_of (new_kept n) ≡ replicate (1544 * n) 0 }
    ensures new { (n : ℕ) → n ≤ 32 → opened (replicate (1544 * n) 0) ≡ new_kept n }
{}
