// What specifications, jobs and their texts say of one another.
ghost use Rattle.spec_codec.specs.Texts.{JobIsReadBack, TextIsReadBack};

/// What is printed is read back: the normal form of a specification is a document that gives it.
pub fn text_is_read_back()
    ensures { TextIsReadBack }
{}

/// A document that has the members of a job gives that job.
pub fn job_is_read_back()
    ensures { JobIsReadBack }
{}
