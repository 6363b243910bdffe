// What a layer makes of the places and refusals that come up from the bank below.
ghost use Rattle.std.specs.Prelude.{◌≡◌};
ghost use Rattle.layers.specs.Layers.{deepen, deeper, deepened, raised};

use policy::refusal::{Place, Refusal};

// One layer more; 255 stands for 255 or more.
fn deepen_place(place: Place) -> Place
    ensures { result ≡ deepen place }
{
    let (depth, writer, reader) = place;
    (depth.saturating_add(1), writer, reader)
}

fn deepen_refusal(refusal: Refusal) -> Refusal
    ensures { result ≡ deeper refusal }
{
    match refusal {
        Refusal::Unreachable(place) => Refusal::Unreachable(deepen_place(place)),
        other => other,
    }
}

// The answer of a bank below, with the place in a refusal one layer deeper.
pub fn deepen_answer<X>(answer: Result<X, Refusal>) -> Result<X, Refusal>
    ensures { result ≡ deepened answer }
{
    answer.map_err(deepen_refusal)
}

// The place that a bank below answers, one layer deeper.
pub fn deepen_located(answer: Result<Place, Refusal>) -> Result<Place, Refusal>
    ensures { result ≡ raised answer }
{
    answer.map(deepen_place)
}
