// What a diagram and its text say of one another.
ghost use Rattle.lasre_codec.specs.Texts.{TextIsReadBack};

/// What is written is read back: the text of a job, a diagram and sheets is a document that gives them, without
/// sheets of pipes that do not exist.
pub fn text_is_read_back()
    ensures { TextIsReadBack }
{}
