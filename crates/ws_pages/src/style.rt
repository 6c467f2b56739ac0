//! What is on every page: its head, with the style, and the filters. There is no JavaScript.

/// What comes in front of the date.
pub(crate) const FRONT: &str = "<!DOCTYPE html>
<html lang=\"en\">
<head>
<meta charset=\"utf-8\">
<meta name=\"viewport\" content=\"width=device-width, initial-scale=1, minimum-scale=1\">
<title>wst report</title>
<style>
:root { color-scheme: light dark; --page: #ffffff; --text: #1b1f24; --soft: #57606a; --rule: #d0d7de; --head: #f2f4f7;
  --pass: #f1f8f3; --pass-text: #4d7358; --loose: #f5cf66; --loose-text: #3d2c00; --fail: #8a0f0a; --fail-text: #ffffff;
  --none: #ffffff; --none-text: #767f89; }
@media (prefers-color-scheme: dark) {
  :root { --page: #12161b; --text: #e4e8ec; --soft: #9aa4af; --rule: #333b45; --head: #1d232b;
    --pass: #17221b; --pass-text: #7fa58a; --loose: #6d5410; --loose-text: #ffe7a6;
    --fail: #ffb0a8; --fail-text: #4a0703; --none: #12161b; --none-text: #8b949e; }
}
body { margin: 1rem; font: 15px/1.4 system-ui, sans-serif; color: var(--text); background: var(--page); }
h1 { margin: 0 0 .25rem; font-size: 1.4rem; }
p { margin: 0 0 .75rem; color: var(--soft); }
a { color: inherit; }
b, span, pre, .totals div { unicode-bidi: isolate; }
small { font-size: .8rem; color: var(--soft); }
table { border-collapse: separate; border-spacing: 0; border: solid var(--rule); border-width: 1px 0 0 1px; }
th, td { border: solid var(--rule); border-width: 0 1px 1px 0; padding: .1rem .45rem; text-align: left;
  font-weight: normal; }
thead th { background: var(--head); vertical-align: bottom; }
label { margin-right: 1rem; }
.totals { margin-bottom: .75rem; }
.totals td, .totals thead th { text-align: right; vertical-align: top; font-variant-numeric: tabular-nums; }
.totals th:first-child { text-align: left; overflow-wrap: anywhere; }
.totals b { font-weight: normal; margin-right: .6rem; }
.totals div { color: var(--soft); }
main { margin-top: .75rem; }
.wide { min-width: min(48rem, 100%); }
.wide thead th { position: sticky; z-index: 2; top: 0; }
.wide th:first-child { position: sticky; z-index: 1; left: 0; background: var(--head); }
.wide thead th:first-child { z-index: 3; }
.wide th span { margin-left: .4rem; color: var(--soft); }
.wide .end { padding: .3rem 0; text-align: center; white-space: nowrap; }
.wide .end span { margin: 0; color: inherit; }
.end span, .end small { display: inline-block; vertical-align: bottom; writing-mode: vertical-rl;
  transform: rotate(180deg); }
.end:nth-child(2):last-child span, .end:nth-child(2):last-child small { display: block; padding: 0 .3rem;
  writing-mode: horizontal-tb; transform: none; }
.wide .group th { background: var(--page); font-weight: 600; }
.group label { position: sticky; left: .45rem; cursor: pointer; }
.wide td { width: 1.6rem; min-width: 1.6rem; padding: 0; text-align: center; }
td a { display: block; text-decoration: none; }
th a { text-decoration: underline dotted; }
tr { scroll-margin-top: 20rem; }
tr:target th, tr:target td { border-bottom-color: currentColor; }
tr:target th:first-child a { font-weight: 600; }
td.P { background: var(--pass); color: var(--pass-text); }
td.L { background: var(--loose); color: var(--loose-text); font-style: italic;
  box-shadow: inset 0 -3px var(--loose-text); }
td.F { background: var(--fail); color: var(--fail-text); font-weight: 800; box-shadow: inset 0 0 0 2px var(--page); }
td.X { background: var(--page); color: var(--text); font-weight: 800; box-shadow: inset 0 0 0 3px var(--fail); }
td.N { background: var(--none); color: var(--none-text); }
.panel { display: none; }
tr:target + .panel { display: table-row; }
.panel > td { text-align: left; }
.panel > td > div { contain: inline-size; position: sticky; left: 0; box-sizing: border-box;
  width: min(100%, 100vw - 2rem); padding: .5rem .75rem .75rem; }
.panel a { float: right; padding: 0 .4rem; text-decoration: underline; }
.panel > td > div > div { display: flex; flex-direction: column; }
.panel > td > div > div > div { margin-top: .5rem; padding-left: .6rem; border-left: 4px solid var(--pass-text); }
.panel div div div.F, .panel div div div.X { order: -2; border-left-color: var(--fail); }
.panel div div div.L { order: -1; border-left-color: var(--loose); }
.panel div div div.P { display: flex; flex-wrap: wrap; gap: 0 .6rem; margin-top: .2rem; }
pre { margin: .1rem 0; white-space: pre-wrap; overflow-wrap: anywhere; font: 13px/1.45 ui-monospace, monospace; }
.panel p { margin: .1rem 0 0; white-space: pre-line; }
tbody:has(.group input:not(:checked)) tr:not(.group):not(:target):not(tr:target + tr),
#fails:checked ~ main tr:is(.same, .other):not(:has(.F, .X)),
#fails:checked ~ main tr:is(.same, .other):not(:has(.F, .X)) + .panel, #fails:checked ~ main tbody:not(:has(.F, .X)),
#differ:checked ~ main tr.same, #differ:checked ~ main tr.same + .panel,
#differ:checked ~ main tbody:not(:has(tr.other)) { display: none; }
@media (min-width: 50rem), print {
  .totals div { display: inline; }
  .totals div, .totals small { margin-right: .6rem; }
}
@media (max-width: 40rem) {
  .wide:has(.end:nth-child(5)) tbody th:first-child { max-width: 5rem; overflow: hidden; text-overflow: ellipsis;
    white-space: nowrap; }
  .wide:has(.end:nth-child(5)) tr:target th:first-child { white-space: normal; overflow-wrap: anywhere; }
  .wide:has(.end:nth-child(5)) td { width: 1.05rem; min-width: 1.05rem; }
  .wide:has(.end:nth-child(5)) .end { line-height: 1.1; }
}
@media print {
  body { margin: 0; font-size: 9pt; }
  pre { font-size: 8pt; }
  .wide { min-width: 0; }
  .wide td { width: auto; min-width: 1.2rem; }
  #fails, #differ, label[for], .group input, .panel a, tbody:has(.group input:not(:checked)):not(:has(:target)) {
    display: none; }
  th, td { print-color-adjust: exact; -webkit-print-color-adjust: exact; }
  .wide thead th, .wide th:first-child, .group label, .panel > td > div { position: static; }
  .panel > td > div { width: auto; }
  tr { break-inside: avoid; }
  .group { break-after: avoid; }
}
</style>
</head>
<body>
<h1>wst report</h1>
";

/// What comes between the date and the totals.
pub(crate) const LEGEND: &str = "
<p>P pass, L loose, F fail, X no connection, - no line. Click a letter or a case for the frames sent, the results and
the rules.</p>
<table class=\"totals\">
<thead><tr><th scope=\"col\">Peer</th><th scope=\"col\">P</th>
<th scope=\"col\">L</th><th scope=\"col\">F, X</th><th scope=\"col\">-</th></tr></thead>
<tbody>
";

/// What comes after the totals: it hides the rows without a Fail.
pub(crate) const FAILS: &str = "<input type=\"checkbox\" id=\"fails\">
<label for=\"fails\">Only rows with an F or X</label>
";

/// What comes if there is more than one peer: it hides the rows in which all have one letter.
pub(crate) const FILTER: &str = "<input type=\"checkbox\" id=\"differ\">
<label for=\"differ\">Only rows where peers differ</label>
";

/// What comes last.
pub(crate) const BACK: &str = "</body>
</html>
";
