//! The page of a report, without the facts that it shows.

/// What stands before the facts.
pub const HEAD: &str = "<!doctype html>
<html lang='en'>
<head>
<meta charset='utf-8'>
<meta name='viewport' content='width=device-width, initial-scale=1'>
<meta name='color-scheme' content='light dark'>
<title>sqrescue report</title>
<style>
:root { --ground: #fbfbf9; --card: #ffffff; --ink: #1d1f21; --dim: #62676c; --line: #dcdcd6; --good: #1a7f4b;
  --bad: #b3261e; --u0: #3b6fb6; --u1: #1f4173; --u2: #2d9c8f; --u3: #14574f; --u4: #c98a2b; --u5: #7a7f85;
  --u6: #b9bdc1; --u7: #d1495b; --u8: #8d5aa8; --u9: #4d4d4d; --log: #e0447c; }
@media (prefers-color-scheme: dark) {
  :root { --ground: #15171a; --card: #1e2125; --ink: #e6e7e8; --dim: #9aa0a6; --line: #33373c; --good: #4cc38a;
    --bad: #ff7b72; --u0: #5b93e0; --u1: #9dbff2; --u2: #3cbcae; --u3: #96e0d7; --u4: #e3a849; --u5: #8b9096;
    --u6: #4b5056; --u7: #ef6a7b; --u8: #b589cf; --u9: #cfcfcf; --log: #ff6aa0; }
}
* { box-sizing: border-box; }
body { margin: 0 auto; max-width: 1180px; padding: 24px 20px 60px; background: var(--ground); color: var(--ink);
  font: 14px/1.45 system-ui, -apple-system, 'Segoe UI', sans-serif; }
h1 { font-size: 20px; margin: 0 0 2px; overflow-wrap: anywhere; }
h2 { font-size: 15px; margin: 0 0 10px; }
section { background: var(--card); border: 1px solid var(--line); border-radius: 8px; padding: 14px 16px;
  margin: 14px 0; }
.dim { color: var(--dim); }
.verdict { border-left: 6px solid var(--good); font-size: 16px; }
.verdict.bad { border-left-color: var(--bad); }
.legend { display: flex; flex-wrap: wrap; gap: 4px 16px; margin: 0 0 10px; padding: 0; list-style: none; }
.legend i { display: inline-block; width: 11px; height: 11px; border-radius: 2px; margin-right: 6px;
  vertical-align: -1px; }
canvas { display: block; width: 100%; }
#tip { min-height: 1.5em; margin-top: 8px; font-family: ui-monospace, monospace; font-size: 13px; }
table { border-collapse: collapse; width: 100%; }
td, th { text-align: left; padding: 3px 10px 3px 0; vertical-align: top; font-weight: normal; }
td.n, th.n { text-align: right; font-variant-numeric: tabular-nums; white-space: nowrap; }
tr + tr td { border-top: 1px solid var(--line); }
.bar { height: 12px; border-radius: 2px; min-width: 1px; }
.fields { columns: 3 240px; column-gap: 28px; }
.fields div { display: flex; justify-content: space-between; break-inside: avoid; padding: 2px 0; }
.scroll { max-height: 420px; overflow: auto; }
</style>
</head>
<body>
<h1 id='file'></h1>
<div class='dim' id='about'></div>
<section class='verdict' id='verdict'></section>
<section><h2>Pages</h2><ul class='legend' id='legend'></ul><canvas id='map'></canvas>
<div id='tip' class='dim'></div></section>
<section><h2>Tables and indexes</h2><div class='scroll'><table id='trees'></table></div></section>
<section><h2>Log</h2><div id='log'></div><canvas id='commits' height='0'></canvas>
<div id='commit' class='dim'></div></section>
<section><h2>Header</h2><div class='fields' id='header'></div></section>
<script id='facts' type='application/json'>
";

/// What stands behind them.
pub const TAIL: &str = "</script>
<script>
'use strict';
const facts = JSON.parse(document.getElementById('facts').textContent);
const USES = ['table leaf', 'table interior', 'index leaf', 'index interior', 'overflow', 'free trunk', 'free leaf',
  'unused', 'pointer map', 'lock byte'];
const at = id => document.getElementById(id);
const few = n => n.toLocaleString('en');
const text = hex => new TextDecoder().decode(Uint8Array.from(hex.match(/../g) || [], two => parseInt(two, 16)));
const put = (parent, name, content, kind) => {
  const made = document.createElement(name);
  if (content !== undefined) made.textContent = content;
  if (kind) made.className = kind;
  parent.append(made);
  return made;
};
const color = name => getComputedStyle(document.documentElement).getPropertyValue(name).trim();
const path = text(facts.file);
at('file').textContent = path;
document.title = path + ' - sqrescue report';
const pages = facts.runs.reduce((sum, run) => sum + run[1], 0);
const header = facts.header || {};
const size = facts['page size'];
at('about').textContent = few(pages) + ' pages of ' + few(size)
  + ' bytes, as the database file and its logs show them; ' + facts.version;

// The verdict.
const verdict = facts.verdict;
if (verdict.check === 'clean') {
  at('verdict').textContent = 'Clean: ' + ['pages', 'trees', 'b-tree', 'overflow', 'free']
    .map(word => few(verdict[word]) + ' ' + word).join(', ');
} else {
  at('verdict').classList.add('bad');
  at('verdict').textContent = 'refused' in verdict ? 'Refused: ' + verdict.refused
    : 'Page ' + few(verdict.page) + ': fault ' + verdict.fault + ' ' + verdict.name;
}

// The map: a square a page, in rows. A run of pages of one use is drawn as at most three rectangles.
const names = new Map(facts.trees.map(tree => [tree.root, tree.named ? text(tree.named) : '']));
const map = at('map');
let columns = 1, side = 1, place = 1;
const rows = () => Math.ceil(pages / columns);
function fill(context, from, count) {
  while (count > 0) {
    const row = Math.floor(from / columns), column = from % columns;
    const whole = column === 0 ? Math.floor(count / columns) : 0;
    const wide = whole ? columns : Math.min(columns - column, count), high = whole || 1;
    context.fillRect(column * side, row * side, wide * side, high * side);
    from += wide * high;
    count -= wide * high;
  }
}
function lines(context, wide, high) {
  if (side < 5) return;
  context.fillStyle = color('--card');
  for (let x = 0; x <= wide; x += side) context.fillRect(x + side - 1, 0, 1, high);
  for (let y = 0; y <= high; y += side) context.fillRect(0, y + side - 1, wide, 1);
}
function mark(context, from, count, name) {
  context.fillStyle = color(name);
  const inset = side < 5 ? 0 : Math.floor(side / 4);
  for (let k = from; k < from + count; k++) {
    const x = k % columns * side, y = Math.floor(k / columns) * side;
    if (side < 5) context.fillRect(x, y, side, Math.max(1, side / 2));
    else context.fillRect(x + inset, y + inset, side - 2 * inset - 1, side - 2 * inset - 1);
  }
}
function draw() {
  const scale = window.devicePixelRatio || 1, wide = map.clientWidth;
  side = Math.max(2, Math.min(14, Math.floor(Math.sqrt(wide * 560 / Math.max(pages, 1)))));
  columns = Math.max(1, Math.floor(wide / side));
  const high = rows() * side;
  map.width = wide * scale;
  map.height = high * scale;
  map.style.height = high + 'px';
  const context = map.getContext('2d');
  context.scale(scale, scale);
  for (const [first, count, use] of facts.runs) {
    context.fillStyle = color('--u' + use);
    fill(context, first - 1, count);
  }
  lines(context, columns * side, high);
  for (const [page, , count] of facts.logged) mark(context, page - 1, count, '--log');
  for (const [first, count, , , fault] of facts.runs) if (fault) mark(context, first - 1, count, '--bad');
  timeline();
}
const runAt = (runs, page) => {
  let low = 0, high = runs.length - 1;
  while (low < high) {
    const middle = (low + high + 1) >> 1;
    if (runs[middle][0] <= page) low = middle; else high = middle - 1;
  }
  return runs[low];
};
function sentence(page) {
  const [, , use, of, fault] = runAt(facts.runs, page);
  let line = 'page ' + page + ' ' + USES[use];
  if (of) line += ' of ' + of;
  if (use < 4 && names.get(of)) line += ' named ' + names.get(of);
  const logged = facts.logged.length ? runAt(facts.logged, page) : undefined;
  if (logged && logged[0] <= page && page < logged[0] + logged[2]) {
    line += ' from ' + (facts.log.log === 'journal' ? 'record ' : 'frame ') + (logged[1] + page - logged[0]);
  }
  if (fault) line += ' fault ' + fault;
  return line;
}
map.addEventListener('mousemove', event => {
  const page = Math.floor(event.offsetY / side) * columns + Math.floor(event.offsetX / side) + 1;
  if (event.offsetX < columns * side && page >= 1 && page <= pages) at('tip').textContent = sentence(page);
});
const counts = USES.map(() => 0);
for (const run of facts.runs) counts[run[2]] += run[1];
function entry(name, words) {
  const item = put(at('legend'), 'li');
  put(item, 'i').style.background = 'var(' + name + ')';
  item.append(words);
}
USES.forEach((use, k) => { if (counts[k]) entry('--u' + k, use + ' ' + few(counts[k])); });
const logged = facts.logged.reduce((sum, run) => sum + run[2], 0);
if (logged) entry('--log', 'from the log ' + few(logged));
at('tip').textContent = 'Point at a square for its page.';

// A bar a tree.
const most = Math.max(1, ...facts.trees.map(tree => tree.pages));
const trees = [...facts.trees].sort((a, b) => b.pages - a.pages || a.root - b.root);
for (const tree of trees) {
  const row = put(at('trees'), 'tr');
  put(row, 'td', names.get(tree.root) || (tree.root === 1 ? 'sqlite_schema' : '(no name)'));
  put(row, 'td', tree.kind + ' at ' + tree.root, 'dim');
  put(row, 'td', few(tree.pages), 'n');
  const bar = put(put(row, 'td'), 'div', '', 'bar');
  bar.style.width = Math.max(1, tree.pages / most * 420) + 'px';
  bar.style.background = tree.kind === 'index' ? 'var(--u2)' : 'var(--u0)';
}

// The log: its commits one behind the other, as wide as they have frames, and what stands behind the front.
const log = facts.log, commits = log.commits || [];
const behind = log['behind frames'] || 0;
const frames = (commits.length ? commits[commits.length - 1][0] : 0) + behind;
if (log.log === 'wal') {
  at('log').textContent = 'Write-ahead log: ' + few(commits.length) + ' commits in ' + few(log.front)
    + ' frames; stops with ' + log.stop + ' at frame ' + few(log.at) + '; behind the front ' + few(behind) + ' frames, '
    + few(log['bytes over']) + ' bytes over.';
} else if (log.log === 'journal') {
  at('log').textContent = 'Hot rollback journal: ' + few(log.records) + ' records; ' + few(log.first)
    + ' pages before the transaction; stops with ' + log.stop + ' at byte ' + few(log.at) + '.';
} else {
  at('log').textContent = 'No log counts.';
}
function timeline() {
  const canvas = at('commits'), scale = window.devicePixelRatio || 1, wide = canvas.clientWidth;
  if (!frames) return;
  canvas.width = wide * scale;
  canvas.height = 46 * scale;
  canvas.style.height = '46px';
  const context = canvas.getContext('2d');
  context.scale(scale, scale);
  let from = 0;
  commits.forEach(([to], k) => {
    context.fillStyle = color(k % 2 ? '--u2' : '--u0');
    context.fillRect(from / frames * wide, 8, Math.max(0.5, (to - from) / frames * wide - 0.5), 30);
    from = to;
  });
  context.fillStyle = color('--u6');
  context.fillRect(from / frames * wide, 14, (frames - from) / frames * wide, 18);
}
at('commits').addEventListener('mousemove', event => {
  const frame = Math.floor(event.offsetX / at('commits').clientWidth * frames) + 1;
  const k = commits.findIndex(([to]) => frame <= to);
  at('commit').textContent = k < 0 ? 'behind the front: frame slot ' + few(frame)
    : 'commit ' + few(k + 1) + ' frame ' + few(commits[k][0]) + ' pages ' + few(commits[k][1])
      + ' size ' + few(commits[k][2]);
});

// The header's fields.
for (const [word, value] of Object.entries(header)) {
  const field = put(at('header'), 'div');
  put(field, 'span', word, 'dim');
  put(field, 'span', String(value));
}
window.addEventListener('resize', draw);
window.matchMedia('(prefers-color-scheme: dark)').addEventListener('change', draw);
draw();
</script>
</body>
</html>
";
