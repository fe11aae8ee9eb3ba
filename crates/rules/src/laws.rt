// The laws of a run.
ghost use Rattle.rules.specs.Examples.{ExamplesEndSo};
ghost use Rattle.rules.specs.Laws.{RunsAreLawful};

// Every run that is made is lawful after every list of lines.
pub fn runs_are_lawful()
    ensures { RunsAreLawful }
{}

// Small runs end as the rules say.
pub fn examples_end_so()
    ensures { ExamplesEndSo }
{}
