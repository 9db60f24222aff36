//! A part of the page: made by scripts/page-text.py from page/style.css.

/// The part.
pub(crate) const TEXT: &str = ":root {
  color-scheme: light dark;
  --paper: #f2f4f7; --card: #fff; --ink: #16202c; --quiet: #51606f; --line: #cdd5de; --edge: #75828f;
  --accent: #0b5a66; --on-accent: #fff; --mark: #fff0b3; --new: #0f6b3c;
  --type: #dde4ff; --type-ink: #1f2c77; --map: #fae5ae; --map-ink: #4b3700; --odd: #e5eaf0; --even: #cdeae6; --even-ink: #0b3a3a;
  --bad: #a50f1d; --on-bad: #fff; --bad-paper: #fdeaea; --bad-ink: #8a0b17;
  --mono: ui-monospace, Menlo, Consolas, \"DejaVu Sans Mono\", monospace;
}
@media (prefers-color-scheme: dark) {
  :root {
    --paper: #10151b; --card: #18202a; --ink: #e6ecf3; --quiet: #a3b1c0; --line: #33404e; --edge: #76869a;
    --accent: #7fd6df; --on-accent: #06272c; --mark: #4a4014; --new: #7ddca6;
    --type: #2c3a7a; --type-ink: #e3e8ff; --map: #56430f; --map-ink: #ffebb8; --odd: #2b3643; --even: #174744; --even-ink: #d3f5f0;
    --bad: #ff9a94; --on-bad: #2b0003; --bad-paper: #3a1a1e; --bad-ink: #ffb9b4;
  }
}
* { box-sizing: border-box; }
body { margin: 0; background: var(--paper); color: var(--ink); font: 1rem/1.45 system-ui, \"DejaVu Sans\", sans-serif; }
h1, h2, h3, p, ul, dl, dd { margin: 0; padding: 0; }
h1, h2 { font-size: 1.3rem; }
h3, caption { font-size: 1.05rem; font-weight: 700; }
[hidden] { display: none !important; }
:focus-visible { outline: 3px solid var(--accent); outline-offset: 2px; }
.skip { position: absolute; left: -99rem; background: var(--accent); color: var(--on-accent); padding: .5rem 1rem; }
.skip:focus { left: .5rem; top: .5rem; }
.sr { position: absolute; width: 1px; height: 1px; overflow: hidden; clip-path: inset(50%); }
header { background: var(--card); border-bottom: 1px solid var(--line); padding: .8rem 1.2rem 0; }
main { max-width: 88rem; margin: 0 auto; padding: 1.2rem; }
main:focus { outline: none; }
.bar, .acts { display: flex; flex-wrap: wrap; gap: .5rem; align-items: end; }
.bar { gap: .5rem 1.2rem; justify-content: space-between; }
.quiet { color: var(--quiet); }
.small { font-size: .875rem; }
[role=tablist] { display: flex; gap: .2rem; margin-top: .5rem; }
button, select, input, textarea { font: inherit; color: var(--ink); background: var(--card); border: 1px solid var(--edge); border-radius: .35rem; padding: .35rem .6rem; max-width: 100%; min-height: 2.3rem; }
button { cursor: pointer; }
button:hover:not(:disabled, [role=tab]) { box-shadow: 0 0 0 1px var(--accent); }
:disabled { color: var(--quiet); border-style: dashed; opacity: 1; cursor: not-allowed; }
.chosen { background: var(--accent); color: var(--on-accent); border-color: var(--accent); }
[role=tab] { border: 0; border-bottom: 4px solid transparent; border-radius: 0; color: var(--quiet); padding: .45rem .9rem; }
[role=tab][aria-selected=true] { border-bottom-color: var(--accent); color: var(--ink); font-weight: 700; }
input[type=file] { width: 100%; border-style: dashed; font-size: .875rem; }
[role=switch] { width: 1.15rem; min-height: 1.15rem; accent-color: var(--accent); vertical-align: -.2rem; }
textarea { width: 100%; }
textarea, code, .mono, .lines { font: .875rem/1.5 var(--mono); overflow-wrap: anywhere; }
label, .label { display: block; min-width: 0; font-size: .875rem; font-weight: 600; }
label > :is(select, textarea, input:not([role=switch])) { display: block; margin-top: .15rem; font-weight: 400; }
.card { background: var(--card); border: 1px solid var(--line); border-radius: .5rem; padding: .9rem 1rem; min-width: 0; }
.stack, .two, .halves, .three, .shown, .maps { display: grid; gap: 1rem; grid-template-columns: minmax(0, 1fr); align-items: start; }
.fields { display: grid; gap: .7rem; grid-template-columns: repeat(auto-fit, minmax(9rem, 1fr)); align-items: end; }
.fields label > * { width: 100%; }
.drop.over { outline: 3px dashed var(--accent); outline-offset: 3px; }
.status { min-height: 1.45em; font-weight: 600; }
.status.bad { color: var(--bad-ink); }
.status.bad::before { content: \"\\26A0\\FE0E\\20\"; }
.complaints { list-style: none; display: grid; gap: .4rem; }
main :is(ul, div):empty, .small:empty, .complaints:empty { display: none; }
.complaints > li, .fault { background: var(--bad-paper); color: var(--bad-ink); border-left: 5px solid var(--bad); border-radius: .3rem; padding: .5rem .8rem; overflow-wrap: anywhere; }
.fault dl { display: grid; grid-template-columns: auto minmax(0, 1fr); gap: .1rem .8rem; margin: .3rem 0; }
.fault dt { font-weight: 600; }
.fault ul { list-style: none; }
.lines { line-height: 1.75; margin-top: .4rem; }
.line { display: flex; white-space: nowrap; }
.offset { flex: none; width: 3.1em; color: var(--quiet); }
.hex { flex: none; width: 27em; }
.run { display: inline-block; border-radius: .2em; }
.byte { display: inline-block; padding: 0 .21em; }
.text .byte { padding: 0; }
.prefix { text-decoration: underline dotted; text-underline-offset: .2em; }
.type { background: var(--type); color: var(--type-ink); }
.bitmap, .set { background: var(--map); color: var(--map-ink); }
.odd { background: var(--odd); }
.even { background: var(--even); color: var(--even-ink); }
.run.bad, .chip.bad, tr.bad { background: var(--bad-paper); color: var(--bad-ink); }
.hit { background: var(--bad); color: var(--on-bad); font-weight: 700; text-decoration: underline; border-radius: .2em; }
.run.on { outline: 2px solid var(--ink); outline-offset: -1px; font-weight: 700; }
.run:focus-visible { outline: 3px solid var(--accent); outline-offset: 1px; }
.legend, td.mono { font-size: .8125rem; }
.legend { display: flex; flex-wrap: wrap; gap: .3rem .6rem; margin-top: .6rem; }
.legend span { padding: 0 .4em; border-radius: .2em; }
table { width: 100%; border-collapse: collapse; font-size: .875rem; }
caption { text-align: left; padding-bottom: .3rem; }
th { text-align: left; color: var(--quiet); font-weight: 600; }
th, td { padding: .22rem .6rem .22rem 0; border-bottom: 1px solid var(--line); vertical-align: baseline; }
td { overflow-wrap: break-word; }
td:first-child, th:first-child { padding-left: .6rem; }
td.mono { min-width: 9.7rem; white-space: pre-wrap; overflow-wrap: anywhere; }
.part td { border-bottom: 0; padding-top: 0; color: var(--quiet); }
tr.on { background: var(--mark); color: var(--ink); box-shadow: inset .3rem 0 var(--accent); }
tr:focus-visible { outline-offset: -3px; }
.chip { display: inline-block; min-width: 2.2em; text-align: center; border-radius: .25em; }
.news { color: var(--new); }
.grid { display: grid; grid-template-columns: repeat(16, minmax(0, 1fr)); gap: 2px; font: .75rem/1.7 var(--mono); text-align: center; color: var(--quiet); }
.set { border: 1px solid; font-weight: 700; border-radius: .2em; }
.element { display: grid; gap: .1rem .7rem; grid-template-columns: minmax(0, 16rem) minmax(0, 1fr) auto; align-items: center; padding: .4rem 0; border-top: 1px solid var(--line); }
.rule { grid-column: 2 / 4; }
.wrong { color: var(--bad-ink); font-weight: 600; }
[aria-invalid=true] { border: 2px solid var(--bad); }
a { color: var(--accent); }
@media (min-width: 44.01rem) {
  .halves { grid-template-columns: repeat(2, minmax(0, 1fr)); }
}
@media (min-width: 60rem) {
  .two { grid-template-columns: minmax(0, 3fr) minmax(0, 2fr); }
  .three { grid-template-columns: repeat(3, minmax(0, 1fr)); }
  .shown { grid-template-columns: 37rem minmax(0, 1fr); }
  .shown > :first-child { position: sticky; top: .5rem; }
  .maps { grid-template-columns: repeat(2, minmax(0, 1fr)); }
}
@media (max-width: 44rem) {
  header, main { padding-left: .7rem; padding-right: .7rem; }
  [role=tab] { padding: .45rem .55rem; }
  .card { padding: .7rem; }
  .lines { font-size: .75rem; }
  .byte { padding: 0 .08em; }
  .hex { width: auto; }
  .text { display: none; }
  .grid { grid-template-columns: repeat(8, minmax(0, 1fr)); }
  .element { grid-template-columns: minmax(0, 1fr) auto; }
  .element label, .rule { grid-column: 1 / 3; }
  thead { position: absolute; width: 1px; height: 1px; overflow: hidden; clip-path: inset(50%); }
  table, caption, tbody, tr { display: block; }
  tr { padding: .3rem 0; border-bottom: 1px solid var(--line); }
  td, td.mono { display: grid; overflow-wrap: anywhere; grid-template-columns: 5.6rem minmax(0, 1fr); gap: .5rem; border: 0; padding: .05rem 0 .05rem .6rem; }
  td::before { content: attr(data-label); color: var(--quiet); font: 600 .8125rem/1.6 system-ui, sans-serif; }
  tr.on td::before { color: var(--ink); }
  td:empty { display: none; }
}
";
