// In which body a field stands, and the labels that it may have there.
ghost use Rattle.std.specs.Prelude.{◌≡◌};
ghost use Rattle.grammar.specs.Grammar.{label_allowed, label_required, map_allowed};
ghost use Rattle.reader.specs.Modes.{syntax_in, mode_in};

use grammar::Rule;

/// The body that is read, with the syntax of its file where that matters.
#[derive(Debug, Clone, Copy, PartialEq, Eq)]
pub enum MessageBodyParseMode {
    MessageProto2,
    MessageProto3,
    Oneof,
    ExtendProto2,
    ExtendProto3,
}

impl MessageBodyParseMode {
    pub fn label_allowed(self, label: Rule) -> bool
        ensures { result ≡ label_allowed (syntax_in self) (mode_in self) label }
    {
        match label {
            Rule::Repeated | Rule::Optional => self.map_allowed(),
            Rule::Required => self.some_label_required(),
        }
    }

    pub fn some_label_required(self) -> bool
        ensures { result ≡ label_required (syntax_in self) (mode_in self) }
    {
        matches!(
            self,
            MessageBodyParseMode::MessageProto2 | MessageBodyParseMode::ExtendProto2
        )
    }

    pub fn map_allowed(self) -> bool
        ensures { result ≡ map_allowed (mode_in self) }
    {
        self != MessageBodyParseMode::Oneof
    }
}
