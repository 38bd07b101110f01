//! The part of a report's page that shows the changes of commits, without them.

/// What stands between the facts and the element of the changes, where there is one.
pub const CHANGES_HEAD: &str = "</script>
";

/// What stands behind that element, before what ends the page: it shows them once the page is there.
pub const CHANGES_TAIL: &str = "<script>
'use strict';
window.addEventListener('load', () => {
  put(document.head, 'style', 'details { padding: 2px 0; } details details { padding-left: 18px; } '
    + 'summary { cursor: pointer; overflow-wrap: anywhere; } .rows td, .rows th { font-size: 13px; } '
    + '.rows td { font-family: ui-monospace, monospace; overflow-wrap: anywhere; } .rows td:first-child, '
    + '.rows td:nth-child(2) { white-space: nowrap; } .insert td:first-child { color: var(--good); } '
    + '.delete td:first-child { color: var(--bad); } .left { color: var(--bad); overflow-wrap: anywhere; }');
  const section = document.createElement('section');
  at('log').parentNode.after(section);
  section.id = 'changed';
  section.setAttribute('aria-labelledby', 'changed-title');
  put(section, 'h2', 'Changes').id = 'changed-title';

  // Where a browser has the source of a number, it is shown as it stands there.
  const parsed = line => JSON.parse(line, (name, value, of) => typeof value !== 'number' ? value
    : { number: of && of.source || String(value) });
  const shown = value => value === null || typeof value !== 'object' ? JSON.stringify(value)
    : Object.entries(value).map(([kind, text]) => kind === 'blob' || kind === 'text' ? kind + ' ' + text : text).join();
  const framed = change => Number(change.frame.number);

  // The lines of each commit, by table.
  const byCommit = new Map(), lefts = [];
  for (const line of at('changes').textContent.split('\\n').filter(line => line)) {
    const change = parsed(line);
    if (!('change' in change)) {
      lefts.push(change);
      continue;
    }
    if (!byCommit.has(framed(change))) byCommit.set(framed(change), new Map());
    const byTable = byCommit.get(framed(change));
    if (!byTable.has(change.table)) byTable.set(change.table, []);
    byTable.get(change.table).push([change.change, line]);
  }
  const KINDS = [['insert', 'inserted', '+'], ['delete', 'deleted', '-'], ['update', 'changed', '~']];
  const counted = rows => KINDS.map(([kind, word]) => [rows.filter(row => row[0] === kind).length, word])
    .filter(([count]) => count).map(([count, word]) => few(count) + ' ' + word).join(', ');
  const values = row => Object.entries(row).map(([name, value]) => name + ' ' + shown(value)).join(', ');
  const differing = (one, other) => Object.fromEntries(Object.entries(one)
    .filter(([name, value]) => !(name in other) || shown(value) !== shown(other[name])));
  const contents = {
    insert: change => values(change.new),
    delete: change => values(change.old),
    update: change => values(differing(change.old, change.new)) + ' -> ' + values(differing(change.new, change.old)),
  };

  // A part that is filled when it is opened.
  const folded = (parent, words, fill) => {
    const made = put(parent, 'details');
    put(made, 'summary', words);
    made.fill = () => {
      if (made.children.length === 1) fill(made);
    };
    made.addEventListener('toggle', made.fill);
  };
  const tabled = (parent, name, rows) => {
    const table = put(parent, 'table', undefined, 'rows');
    table.setAttribute('aria-label', 'rows of ' + name);
    const head = put(put(table, 'thead'), 'tr');
    const named = parsed(rows[0][1]).key ? 'key' : 'rowid';
    for (const word of ['change', named, 'values']) put(head, 'th', word, 'dim').scope = 'col';
    const body = put(table, 'tbody');
    for (const [kind, line] of rows) {
      const change = parsed(line), row = put(body, 'tr', undefined, kind);
      const [, word, sign] = KINDS.find(known => known[0] === kind);
      put(row, 'td', sign + ' ' + word);
      put(row, 'td', change.key ? values(change.key) : shown(change.rowid));
      put(row, 'td', contents[kind](change));
    }
  };
  for (const [frame, byTable] of byCommit) {
    folded(section, 'commit frame ' + few(frame) + ': ' + counted([...byTable.values()].flat()), commit => {
      for (const [name, rows] of byTable) {
        folded(commit, name + ': ' + counted(rows), table => tabled(table, name, rows));
      }
    });
  }
  if (!byCommit.size && !lefts.length) {
    const none = 'No commit of a write-ahead log changed a row. What a rollback journal undoes is not shown here.';
    put(section, 'div', none, 'dim');
  }
  for (const left of lefts) {
    const why = (left.page ? 'page ' + left.page.number + ': fault ' + left.fault.number + ' ' : '') + left['left out'];
    const words = left.from
      ? 'Up to commit frame ' + few(Number(left.from.number)) + ' changes are left out: ' + why + '.'
      : 'From commit frame ' + few(framed(left)) + ' on changes are left out here: ' + why
      + '. See sqrescue diff FILE --commits.';
    put(section, 'div', words, 'left');
  }
  const openAll = parent => {
    for (const made of parent.querySelectorAll(':scope > details')) {
      made.fill();
      made.open = true;
      openAll(made);
    }
  };
  window.addEventListener('beforeprint', () => openAll(section));
  if (byCommit.size === 1) openAll(section);
});
";
