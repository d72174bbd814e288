// What a layer makes of the answers of the device beneath.
ghost use Rattle.std.specs.Prelude.{◌≡◌};
ghost use Rattle.layers.specs.Layer.{passed_answer};

use device::Fault;

// The answer as the layer gives it: a fault rises one level.
pub fn passed_on(answer: Result<(), Fault>) -> Result<(), Fault>
    ensures { result ≡ passed_answer answer }
{
    answer.map_err(Fault::raised)
}
