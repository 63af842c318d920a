// Clearing an image.
ghost use Rattle.std.specs.Prelude.{◌≡◌, length};
ghost use Rattle.std.proofs.Math.ListN.{replicate};

// Sets all bytes of an image to zero, whatever they are: its places are then free.
pub fn clear_image(bytes: &mut [u8])
    ensures { bytes.new ≡ replicate (length bytes.old) 0 }
{
    bytes.fill(0);
}
