// The layers of refusals.
ghost use Rattle.std.specs.Prelude.{◌≡◌};
ghost use Rattle.lines.specs.Layers.{layer_number};

// What refuses: the file as a whole, a line by itself, the rules of a step, or a store.
#[derive(Clone, Copy, PartialEq, Eq, Debug)]
pub enum Layer {
    File,
    Line,
    Step,
    Store,
}

impl Layer {
    // as a report prints it
    pub fn number(self) -> u8
        ensures { result ≡ layer_number self }
    {
        match self {
            Layer::File => 0,
            Layer::Line => 1,
            Layer::Step => 2,
            Layer::Store => 3,
        }
    }
}
