// What is read is written again. All that is refused is tried by the worked cases of `las_cases`, but for bytes
// that are no text.
use crate::{read_job, read_spec, spec_text};
use json_shape::read_json;
use las_base::Size;
use las_spec::refusal_text;
use std::test::Fail;

const TEXT: &str =
    "{\"boxes\":[[1,1,1]],\"max_i\":1,\"max_j\":1,\"max_k\":1,\"optional\":{\"forbidden_cubes\":[]},\"ports\":[{\"direction\":\"-K\",\"location\":[0,0,1],\"z_basis_direction\":\"J\"}],\"stabilizers\":[\"Z\"]}\n";

#[test]
fn a_normal_form_is_read_and_written_again(rt: HostRuntime) -> Result<(), Fail> {
    let read = read_spec(rt.alloc(), TEXT.as_bytes());
    let spec = read.ok().expect(&rt, "the specification is read");
    assert_eq!(rt; spec_text(rt.alloc(), &spec)?.as_slice(), TEXT.as_bytes());
    Ok(())
}

#[test]
fn the_job_of_a_normal_form_is_read(rt: HostRuntime) -> Result<(), Fail> {
    let value = read_json(rt.alloc(), TEXT.as_bytes())?.expect(&rt, "the text is JSON");
    let job = read_job(rt.alloc(), &value)
        .ok()
        .expect(&rt, "its job is read");
    assert_eq!(rt; job.size(), Size { i: 1, j: 1, k: 1 });
    Ok(())
}

#[test]
fn bytes_that_are_no_text_are_refused(rt: HostRuntime) -> Result<(), Fail> {
    let refused = read_spec(rt.alloc(), b"{\"max_i\":1,\"\xff\":0}").err();
    let refusal = refused.expect(&rt, "the bytes are refused");
    assert_eq!(rt; refusal_text(rt.alloc(), refusal)?.as_str(), "not json");
    Ok(())
}
