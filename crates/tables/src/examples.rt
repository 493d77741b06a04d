// The worked examples: the code, asked, says what each line of their table says.
use starred::starred;

#[test]
fn each_line_is_shown(rt: HostRuntime) {
    for example in &starred() {
        assert!(rt; example.is_shown());
    }
}
