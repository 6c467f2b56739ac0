//! Group 6, forms that are too long, and surrogates.

ghost use Rattle.std.specs.Prelude.{◌≡◌, map};
ghost use Rattle.ws_titles.specs.TitleTable.{overlong_titles};
ghost use Rattle.ws_titles.specs.Titles.{title_pair};

use crate::table::Title;

/// Their titles.
pub(crate) fn titles() -> &'static [Title]
    ensures { map title_pair result.now ≡ overlong_titles }
{
    &TITLES
}

static TITLES: [Title; 30] = [
    Title("6.17.1", "Overlong slash of 2 bytes: c0af"),
    Title("6.17.2", "Overlong slash of 3 bytes: e080af"),
    Title("6.17.3", "Overlong slash of 4 bytes: f08080af"),
    Title("6.17.4", "Overlong slash of 5 bytes: f8808080af"),
    Title("6.17.5", "Overlong slash of 6 bytes: fc80808080af"),
    Title("6.18.1", "Highest overlong sequence of 2 bytes: c1bf"),
    Title("6.18.2", "Highest overlong sequence of 3 bytes: e09fbf"),
    Title("6.18.3", "Highest overlong sequence of 4 bytes: f08fbfbf"),
    Title("6.18.4", "Highest overlong sequence of 5 bytes: f887bfbfbf"),
    Title(
        "6.18.5",
        "Highest overlong sequence of 6 bytes: fc83bfbfbfbf",
    ),
    Title("6.19.1", "Overlong NUL of 2 bytes: c080"),
    Title("6.19.2", "Overlong NUL of 3 bytes: e08080"),
    Title("6.19.3", "Overlong NUL of 4 bytes: f0808080"),
    Title("6.19.4", "Overlong NUL of 5 bytes: f880808080"),
    Title("6.19.5", "Overlong NUL of 6 bytes: fc8080808080"),
    Title("6.20.1", "Surrogate U+D800: eda080"),
    Title("6.20.2", "Surrogate U+DB7F: edadbf"),
    Title("6.20.3", "Surrogate U+DB80: edae80"),
    Title("6.20.4", "Surrogate U+DBFF: edafbf"),
    Title("6.20.5", "Surrogate U+DC00: edb080"),
    Title("6.20.6", "Surrogate U+DF80: edbe80"),
    Title("6.20.7", "Surrogate U+DFFF: edbfbf"),
    Title("6.21.1", "Surrogates U+D800 and U+DC00: eda080edb080"),
    Title("6.21.2", "Surrogates U+D800 and U+DFFF: eda080edbfbf"),
    Title("6.21.3", "Surrogates U+DB7F and U+DC00: edadbfedb080"),
    Title("6.21.4", "Surrogates U+DB7F and U+DFFF: edadbfedbfbf"),
    Title("6.21.5", "Surrogates U+DB80 and U+DC00: edae80edb080"),
    Title("6.21.6", "Surrogates U+DB80 and U+DFFF: edae80edbfbf"),
    Title("6.21.7", "Surrogates U+DBFF and U+DC00: edafbfedb080"),
    Title("6.21.8", "Surrogates U+DBFF and U+DFFF: edafbfedbfbf"),
];
