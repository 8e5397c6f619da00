// The tag profile of payloads: its grammar, the judge as a machine, and the theorems. Document 02, K11. The values here are what the readers share with them.
#![tactic(auto)]

// The tags: b i u c v lang ruby rt
#[derive(Clone, Copy)]
pub enum Tag {
    Bold,
    Italic,
    Underline,
    Classed,
    Voice,
    Lang,
    Ruby,
    Rt,
}
