// Which ownership record a word has, at the edges.
use policy::map::{OrecMap, Quotient, Remainder, Scatter};

fn at_edges<M: OrecMap>(map: &M) -> [usize; 4] {
    [0, 63, 64, 4095].map(|word| map.orec_of(word))
}

#[test]
fn remainder(rt: HostRuntime) {
    assert_eq!(rt; at_edges(&Remainder), [0, 63, 0, 63]);
}

#[test]
fn quotient(rt: HostRuntime) {
    assert_eq!(rt; at_edges(&Quotient), [0, 0, 1, 63]);
}

#[test]
fn scatter(rt: HostRuntime) {
    assert_eq!(rt; Scatter.orec_of(1), 39);
    assert_eq!(rt; Scatter.orec_of(2), 15);
    assert_eq!(rt; at_edges(&Scatter), [0, 59, 35, 54]);
}
